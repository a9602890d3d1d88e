//! The page of the desk, by which a browser shows what a book holds, and asks it.
//! Its parts are in `desk/`, from which `desk/make.py` writes `page.rt` and `policy.rt`: `tests/desk.py` sees that the two are what it
//! writes. Wrong bodies: `must-fail-more/`.
#![tactic(auto)]

ghost use Rattle.std.specs.Prelude.{◌≡◌};
ghost use Rattle.desk.specs.Desk as spec;

mod page;
mod policy;

use page::PAGE;
use policy::POLICY;

/// Returns the page, in HTML.
#[tactic(auto, unfolding(crate::specs::Desk::page_text))]
pub fn page_text() -> &'static str
    ensures { result.now ≡ spec.page_text }
{
    PAGE
}

/// Returns what a browser lets the page do (Content Security Policy, level 3): which script and which style are its own, and that it
/// asks its own server alone.
#[tactic(auto, unfolding(crate::specs::Desk::page_policy))]
pub fn page_policy() -> &'static str
    ensures { result.now ≡ spec.page_policy }
{
    POLICY
}
