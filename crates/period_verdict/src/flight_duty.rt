//! The flight duty period of a command line, which has times alone.
//! Wrong bodies: `must-fail-more/`.
ghost use Rattle.std.specs.Prelude.{◌≡◌, IfOk};
ghost use Rattle.period_verdict.specs.FlightDuty as spec;

use duty::{Airport, Fdp, Flight, Segment, last_block_in};
use std::alloc::{AllocError, Global};
use time117::Minute;
use values::{Sequence, Text};

/// Makes a flight duty period of a report and of times that are block-out and block-in of each segment in turn. It is
/// released at its last block-in, and its segments have no flight and no airports.
pub fn read_fdp(alloc: Global, report: Minute, times: &[Minute]) -> Result<Fdp, AllocError>
    ensures { IfOk result (λ fdp. fdp ≡ spec.fdp_of report times.now) }
{
    let segments = read_segments(alloc, times)?;
    let release = last_block_in(report, &segments);
    Ok(Fdp::new(report, release, Sequence::new(segments)))
}

/// Makes the segments that times give, block-out and block-in in turn.
fn read_segments(alloc: Global, times: &[Minute]) -> Result<Vec<Segment>, AllocError>
    ensures { IfOk result (λ segments. segments.items ≡ spec.segments_of times.now) }
{
    let mut segments = Vec::new(alloc);
    for i in 0..times.len() / 2 {
        segments.push(timed_segment(alloc, times[2 * i], times[2 * i + 1]))?;
    }
    Ok(segments)
}

/// Makes a segment of which only the times are given.
fn timed_segment(alloc: Global, block_out: Minute, block_in: Minute) -> Segment
    ensures { result ≡ spec.timed_segment block_out block_in }
{
    Segment {
        flight: Flight::new(Text::new(String::new(alloc))),
        from: Airport::new(Text::new(String::new(alloc))),
        block_out,
        to: Airport::new(Text::new(String::new(alloc))),
        block_in,
    }
}
