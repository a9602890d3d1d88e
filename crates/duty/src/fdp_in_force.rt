//! Flight duty periods as the limits see them: spans of minutes, and the local start by which Tables A and B are
//! entered.
//! Wrong bodies: `must-fail-more/`.
ghost use Rattle.std.specs.Prelude.{◌≡◌};
ghost use Rattle.duty.specs.Minutes.{last_in, fdp_length};

use super::segment::last_block_in;
use super::span::Span;
use std::alloc::Global;
use std::marker::Model;
use time117::Minute;
use values::{MemoryFault, TryClone};

/// A flight duty period (14 CFR 117.3) with its times in force: the actual ones where there are any, else the planned
/// ones. It keeps the acclimated minute of the day of the planned report, by which Tables A and B are entered in
/// either case; a period that is flown for another certificate holder has none, and enters no table. Any times in any
/// order are possible, and any number of segments.
#[derive(Drop)]
pub struct FdpInForce {
    start: Option<u16>,
    report: Minute,
    release: Minute,
    segments: Vec<Span>,
}

impl Model for FdpInForce {
    ghost use Rattle.duty.specs.FdpTimes.{FdpTimes};

    ghost Value = { FdpTimes };

    ghost view = { λ f. record {
      start = f.start;
      report = f.report;
      release = f.release;
      segments = f.segments.items;
    } };
}

impl FdpInForce {
    /// Makes a period of these times: the segments from block-out to block-in, and as `start` the acclimated minute of
    /// the day of the planned report, or none where Tables A and B are not entered.
    pub fn new(start: Option<u16>, report: Minute, release: Minute, segments: Vec<Span>) -> Self
        ensures start { result.start ≡ start }
        ensures report { result.report ≡ report }
        ensures release { result.release ≡ release }
        ensures segments { result.segments ≡ segments.items }
    {
        FdpInForce {
            start,
            report,
            release,
            segments,
        }
    }

    /// Returns the acclimated minute of the day of the planned report, or none where Tables A and B are not entered.
    pub fn start(&self) -> Option<u16>
        ensures { result ≡ self.now.start }
    {
        self.start
    }

    /// Returns the report in force.
    pub fn report(&self) -> Minute
        ensures { result ≡ self.now.report }
    {
        self.report
    }

    /// Returns the release in force.
    pub fn release(&self) -> Minute
        ensures { result ≡ self.now.release }
    {
        self.release
    }

    /// Returns the segments from block-out to block-in.
    pub fn segments(&self) -> &[Span]
        ensures { result.now ≡ self.now.segments }
    {
        self.segments.as_slice()
    }

    /// Returns the end of the period: the last block-in, or the report where there is no segment.
    pub fn last_in(&self) -> Minute
        ensures { result ≡ last_in self.now.report self.now.segments }
    {
        last_block_in(self.report, self.segments.as_slice())
    }

    /// Returns the length of the period in minutes, from report to the last block-in, or 0 where that is before the
    /// report.
    pub fn length(&self) -> u32
        ensures { result ≡ fdp_length self.now }
    {
        self.last_in().number().saturating_sub(self.report.number())
    }
}

impl TryClone for FdpInForce {
    fn try_clone(&self, alloc: Global) -> Result<FdpInForce, MemoryFault> {
        Ok(FdpInForce {
            start: self.start,
            report: self.report,
            release: self.release,
            segments: self.segments.as_slice().to_vec(alloc)?,
        })
    }
}
