//! How many bytes of an input settle what it asks, as far as the input has come. The definition is `IsExtent`
//! (`specs/Extents.antt`).
//! Wrong bodies: `must-fail-more/`.
ghost use Rattle.std.specs.Prelude.{◌≡◌, ◌≤◌, IfOk, length};
ghost use Rattle.httparse.specs.Spans.{IsRequestWithin};
ghost use Rattle.http_message.specs.Extents as spec;
ghost use Rattle.http_message.specs.Plan as plans;
ghost use Rattle.http_message.specs.Heading.{shown_head};

use crate::head::Head;
use crate::plan::{HeadAction, plan_of};
use crate::reading::{MOST_FIELDS, MOST_HEAD, Parsed, parse};
use httparse::spans::{EMPTY_HEADER_SPAN, HeaderSpan, RequestSpans};
use std::alloc::Global;
use values::MemoryFault;

/// How many bytes of an input settle what it asks.
#[derive(Clone, Copy, Debug, PartialEq, Eq)]
pub enum Extent {
    /// It isn't known yet, since the head goes on.
    Unknown,
    /// The first bytes of the input, this many. Those that came are enough if there are as many.
    Known(Settled),
}

/// How many bytes settle a request, and what its client does meanwhile.
#[derive(Clone, Copy, Debug, PartialEq, Eq)]
pub struct Settled {
    /// The bytes of the head and of the body that it announces; none where the input can't begin with a head.
    pub length: usize,
    /// Whether the client waits for `100 Continue` before it sends the body.
    pub waits: bool,
}

/// Finds how many bytes settle what an input asks that begins with these bytes.
pub fn extent_of(alloc: Global, bytes: &[u8]) -> Result<Extent, MemoryFault>
    ensures { IfOk result (λ it. spec.IsExtent bytes.now it) }
{
    let front = &bytes[..bytes.len().min(MOST_HEAD)];
    let mut fields = [EMPTY_HEADER_SPAN; MOST_FIELDS];
    match parse(front, &mut fields) {
        Parsed::Whole(spans) => extent_of_head(alloc, front, spans, fields),
        Parsed::Unfinished => Ok(if front.len() < MOST_HEAD {
            Extent::Unknown
        } else {
            NO_HEAD
        }),
        Parsed::Hopeless => Ok(NO_HEAD),
    }
}

/// What settles an input that can't begin with a head.
const NO_HEAD: Extent = Extent::Known(Settled {
    length: 0,
    waits: false,
});

/// Finds the same of a head whose parts stand there at the front of these bytes. A body is received from `POST` alone, so for any
/// other method the path isn't looked up.
fn extent_of_head(
    alloc: Global,
    front: &[u8],
    spans: RequestSpans,
    fields: [HeaderSpan; 64],
) -> Result<Extent, MemoryFault>
    requires within { IsRequestWithin front.now fields spans }
    requires few { spans.headers ≤ 64 }
    ensures { IfOk result (λ it. spec.IsExtentOf spans.len
        (plans.plan_for_head (shown_head front.now fields spans)).step it) }
{
    let bytes = Vec::from_slice(alloc, front)?;
    let head = Head::new(bytes, spans, fields);
    if head.method() != b"POST".as_slice() {
        return Ok(Extent::Known(Settled {
            length: spans.len,
            waits: false,
        }));
    }
    let Ok(plan) = plan_of(alloc, &head) else {
        return Err(MemoryFault);
    };
    extent_of_action(spans.len, &plan.action)
}

/// Finds the same of a head of this many bytes, for which this is done.
fn extent_of_action(head: usize, action: &HeadAction<'_>) -> Result<Extent, MemoryFault>
    ensures { IfOk result (λ it. spec.IsExtentOf head (plans.step action.now) it) }
{
    let (body, waits) = match action {
        HeadAction::Receive(expected) => (expected.length, expected.continues),
        HeadAction::Refuse(_)
        | HeadAction::Show(_, _)
        | HeadAction::ShowDesk
        | HeadAction::ShowCount => (0, false),
    };
    match head.checked_add(body) {
        Some(length) => Ok(Extent::Known(Settled { length, waits })),
        None => Err(MemoryFault),
    }
}
