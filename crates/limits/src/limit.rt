//! What a limit is: a test of new duties in a history, which passes if and only if they break the rule of
//! `specs/Rules.antt`, and the two laws that each rule keeps.
ghost use Rattle.std.specs.Prelude.{◌↔◌, ◌⊎◌, IsTrue, List};
ghost use Rattle.duty.specs.declared.duty_in_force.DutyInForce.{DutyInForce as InForce};
ghost use Rattle.limits.specs.Rules.{Rule};
ghost use Rattle.limits.specs.Judgement.{IsWithin, IsJoined};
ghost use Rattle.limits.specs.declared.section.Section.{Section};

use super::section::Section;
use duty::History;

/// A limit of 14 CFR Part 117 on the duties of a crew member.
pub trait Limit {
    /// The section that sets it.
    const SECTION: Section;

    ghost SECTION: { Section };

    /// Returns whether the new duties break the limit. `history` has the member's duties in force with the new ones in
    /// it.
    fn is_broken_by(&self, history: &History, new: &History) -> bool
        ensures { IsTrue result ↔ Rule SECTION history.now new.now };

    /// What fewer duties break, more duties break.
    ghost grows: { (fewer history some new : List InForce) → IsWithin fewer history
        → IsWithin some new
        → Rule SECTION fewer some → Rule SECTION history new };

    /// Where duties are added to others, what all of them break was broken by the others, or the added ones break it.
    ghost splits: { (all others added : List InForce) → IsJoined all others added
        → Rule SECTION all all → Rule SECTION others others ⊎ Rule SECTION all added };
}
