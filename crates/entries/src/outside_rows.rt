//! The rows of the table `outside_segment`, by their keys.

ghost use Rattle.std.specs.Prelude.{◌≡◌, IfOk};
ghost use Rattle.std.specs.FinMap as fin;
ghost use Rattle.std.specs.Option.{option_copied};
ghost use Rattle.entries.specs.OutsideRows.{outside_segment_name};

use duty::OutsideId;
use std::alloc::Global;
use tables::outside_segment::OutsideSegmentRecord;
use values::{MemoryFault, OrdKey, OrdMap, TryClone};

/// What a row of `outside_segment` is known by: the outside period, and the segment's number in it from 1.
#[derive(PartialEq, Eq, PartialOrd, Ord, Drop)]
pub struct OutsideSegmentKey {
    pub outside: OutsideId,
    pub number: u32,
}

impl OrdKey for OutsideSegmentKey {
    ghost use Rattle.entries.specs.OutsideRows.{outside_segment_name};
    ghost use Rattle.entries.specs.PlanOrder.{outside_segments_order};

    ghost name = { λ key. outside_segment_name key.outside key.number };

    ghost same_order = { outside_segments_order };
}

/// Finds the row of a segment, if there is one.
pub(crate) fn segment_at<'a>(
    alloc: Global,
    segments: &'a OrdMap<OutsideSegmentKey, OutsideSegmentRecord>,
    outside: &OutsideId,
    number: u32,
) -> Result<Option<&'a OutsideSegmentRecord>, MemoryFault>
    ensures { IfOk result (λ found. option_copied found
        ≡ fin.get segments.now (outside_segment_name outside.now number)) }
{
    let key = OutsideSegmentKey {
        outside: outside.try_clone(alloc)?,
        number,
    };
    Ok(segments.get(&key))
}
