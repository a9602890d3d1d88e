//! The three kinds of time that the limits count.

/// Which minutes of a duty are counted.
#[derive(Clone, Copy, Debug, PartialEq, Eq)]
pub enum Kind {
    /// Flight time (14 CFR 1.1): from block-out to block-in of each segment.
    Flight,
    /// Flight duty periods (14 CFR 117.3): from report to the last block-in.
    FlightDuty,
    /// Duty (14 CFR 117.3): from report to release, and ground duties.
    Duty,
}
