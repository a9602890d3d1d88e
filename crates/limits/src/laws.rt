//! What holds of the judgement. Each of these functions does nothing; its clauses are laws.
ghost use Rattle.limits.specs.Meaning.{BrokenIsInOrder, BrokenIsRules};
ghost use Rattle.limits.specs.Reach.{FarChangesNothing, FarOverlapsNothing, UnreachedIsFar};

/// A section is in the list of the broken ones if and only if its rule holds, and the list is in the sections' order, each of
/// them once at most.
pub fn broken_is_rules()
    ensures rules { BrokenIsRules }
    ensures order { BrokenIsInOrder }
{}

/// Duties that are 365 days or more before or after all new ones change neither which limits the new ones break, nor whether
/// these overlap others.
pub fn far_changes_nothing()
    ensures judgement { FarChangesNothing }
    ensures overlap { FarOverlapsNothing }
{}

/// A duty is 365 days or more before or after all new ones if no window has a minute of their times and of its own.
pub fn unreached_is_far()
    ensures { UnreachedIsFar }
{}
