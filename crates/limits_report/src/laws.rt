//! What holds of the limits of each roster, and of their texts. Each of these functions does nothing; its clause is a law.
ghost use Rattle.limits_report.specs.Laws.{EachHasNearest, EachHasText, ExceedsIsBroken, ExceedsIsRefused, HasOneNearest, HasOneText, LineExceedsIsRule};

/// A line ends in `exceeds` if and only if the new duties break its section's rule.
pub fn exceeds_is_rule()
    ensures { LineExceedsIsRule }
{}

/// With a pairing the lines that end in `exceeds` are those of the limits that its periods break.
pub fn exceeds_is_broken()
    ensures { ExceedsIsBroken }
{}

/// With a pairing that the member doesn't hold they are the sections that refusal 12 of its assignment names.
pub fn exceeds_is_refused()
    ensures { ExceedsIsRefused }
{}

/// A member who is there has a text, with each pairing that is there and without one.
pub fn each_text()
    ensures { EachHasText }
{}

/// A member has one text at most.
pub fn one_text()
    ensures { HasOneText }
{}

/// What is nearest to the limits of a member's duties is there, with each pairing that is there and without one.
pub fn each_nearest()
    ensures { EachHasNearest }
{}

/// It is one list at most.
pub fn one_nearest()
    ensures { HasOneNearest }
{}
