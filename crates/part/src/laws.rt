//! What holds of the parts of a state. Each of these functions does nothing; its clause is a law.

ghost use Rattle.part.specs.Near.{NearAnswersCommands};
ghost use Rattle.part.specs.Part.{AnswersAsWhole, NamesSettle, PartStaysSound};
ghost use Rattle.part.specs.Shown.{EachIsShown, HasOneShown, PartIsShownAlike};

/// A part answers its command as the whole state does: with the same verdict, reply and change.
pub fn answers_as_whole()
    ensures { AnswersAsWhole }
{}

/// The near part of a sound state answers each command as the whole state does: with the same verdict, reply and change.
pub fn near_answers_commands()
    ensures { NearAnswersCommands }
{}

/// A verdict by what a command names, if no history can change it, is that of the whole state.
pub fn names_settle()
    ensures { NamesSettle }
{}

/// The part of a sound state is sound.
pub fn part_is_sound()
    ensures { PartStaysSound }
{}

/// The part that is handed out for a text has the text of the state, or none for the same reason.
pub fn part_is_shown_alike()
    ensures { PartIsShownAlike }
{}

/// Of a sound state something is shown, whatever is asked: a text, or that the member or the pairing isn't there.
pub fn each_is_shown()
    ensures { EachIsShown }
{}

/// For each subject one thing at most is shown.
pub fn one_shown()
    ensures { HasOneShown }
{}
