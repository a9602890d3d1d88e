//! What holds of the reports of every state, in each form, and of its count of requests. Each of these functions does nothing; its
//! clause is a law.
ghost use Rattle.asking.specs.Laws.{EachHasCountText, EachIsShownAs, HasOneCountText, HasOneShownAs};

/// Of a sound state something is shown in each form, whatever is asked: a text, or that the member or the pairing isn't there.
pub fn each_is_shown_as()
    ensures { EachIsShownAs }
{}

/// For each subject one thing at most is shown in a form.
pub fn one_shown_as()
    ensures { HasOneShownAs }
{}

/// A sound state has a text of its count of requests.
pub fn each_has_count_text()
    ensures { EachHasCountText }
{}

/// The text of the count of requests is one at most.
pub fn one_count_text()
    ensures { HasOneCountText }
{}
