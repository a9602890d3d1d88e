//! What is shown of a state as JSON, and that the part of the state that is handed out for it shows the same. Each of these
//! functions does nothing; its clause is a law.
#![tactic(auto)]

ghost use Rattle.part_json.specs.ShownJson.{EachIsShownJson, HasOneShownJson, PartIsShownAlikeJson};

/// The part that is handed out for a report has the report's text of the state in JSON, or none for the same reason.
pub fn part_is_shown_alike()
    ensures { PartIsShownAlikeJson }
{}

/// Of a sound state something is shown in JSON, whatever is asked: a text, or that the member or the pairing isn't there.
pub fn each_is_shown()
    ensures { EachIsShownJson }
{}

/// For each subject one thing at most is shown in JSON.
pub fn one_shown()
    ensures { HasOneShownJson }
{}
