//! A record of a schedule: a segment, and where it stands.
use duty::{PairingId, Segment};
use time117::Minute;

/// Where a segment stands in a schedule.
#[derive(Drop)]
pub struct SegmentPlace {
    pub pairing: PairingId,
    /// The number of the period in its pairing, from 1.
    pub period: usize,
    pub report: Minute,
    pub release: Minute,
}

/// What a record of a schedule says.
#[derive(Drop)]
pub struct ScheduledSegment {
    pub place: SegmentPlace,
    pub segment: Segment,
}
