//! What holds of every schedule. Each of these functions does nothing; its clause is a law.
ghost use Rattle.codec.specs.Laws.{HasNoFault, HasOneFault, IsOfOneList, IsScheduleOrAtFault};

/// A text is a schedule of one list of pairings alone.
pub fn schedule_is_of_one_list()
    ensures { IsOfOneList }
{}

/// No text is a schedule and at fault too.
pub fn schedule_has_no_fault()
    ensures { HasNoFault }
{}

/// At most one record of a text is at fault.
pub fn schedule_has_one_fault()
    ensures { HasOneFault }
{}

/// Each text is a schedule, or has a record at fault.
pub fn text_is_schedule_or_at_fault()
    ensures { IsScheduleOrAtFault }
{}
