//! Duties as the limits see them: times alone, without ids, and the spans of minutes that each kind of time has.
//! Wrong bodies: `must-fail-more/`.
ghost use Rattle.std.specs.Prelude.{◌≡◌, ◌<◌, ◌++◌, length, slice_get, Some, OnOk};
ghost use Rattle.duty.specs.Minutes.{spans_of};

use super::fdp_in_force::FdpInForce;
use super::kind::Kind;
use super::merging::Spans;
use super::span::Span;
use std::alloc::Global;
use values::{MemoryFault, TryClone};

/// A duty of a crew member with its times in force.
#[derive(Drop)]
pub enum DutyInForce {
    Fdp(FdpInForce),
    Ground(Span),
}

impl DutyInForce {
    /// Counts the spans of that kind that the duty has. They may overlap.
    pub fn span_count(&self, kind: Kind) -> usize
        ensures { result ≡ length (spans_of kind self.now) }
    {
        match (self, kind) {
            (DutyInForce::Fdp(fdp), Kind::Flight) => fdp.segments().len(),
            (DutyInForce::Fdp(_), _) => 1,
            (DutyInForce::Ground(_), Kind::Duty) => 1,
            (DutyInForce::Ground(_), _) => 0,
        }
    }

    /// Returns the span of that kind at an index.
    pub fn span_at(&self, kind: Kind, index: usize) -> Span
        requires { index < length (spans_of kind self.now) }
        ensures { slice_get (spans_of kind self.now) index ≡ Some result }
    {
        match self {
            DutyInForce::Fdp(fdp) => match kind {
                Kind::Flight => fdp.segments()[index],
                Kind::FlightDuty => Span {
                    from: fdp.report(),
                    to: fdp.last_in(),
                },
                Kind::Duty => Span {
                    from: fdp.report(),
                    to: fdp.release(),
                },
            },
            DutyInForce::Ground(span) => *span,
        }
    }

    /// Appends the spans of that kind.
    pub(crate) fn append_spans(&self, kind: Kind, spans: &mut Vec<Span>) -> Result<(), MemoryFault>
        ensures { OnOk result (spans.new.items ≡ spans.old.items ++ spans_of kind self.now) }
    {
        for index in 0..self.span_count(kind) {
            spans.push(self.span_at(kind, index))?;
        }
        Ok(())
    }

    /// Returns the spans of that kind.
    pub(crate) fn spans(&self, kind: Kind) -> DutySpans<'_>
        ensures duty { result.duty.now ≡ self.now }
        ensures kind { result.kind ≡ kind }
    {
        DutySpans { duty: self, kind }
    }
}

/// The spans of one kind of a duty.
#[derive(Drop)]
pub(crate) struct DutySpans<'a> {
    duty: &'a DutyInForce,
    kind: Kind,
}

impl Spans for DutySpans<'_> {
    ghost use Rattle.duty.specs.Minutes.{spans_of};

    ghost spans = { λ it. spans_of it.kind it.duty.now };

    fn count(&self) -> usize {
        self.duty.span_count(self.kind)
    }

    fn span(&self, index: usize) -> Span {
        self.duty.span_at(self.kind, index)
    }
}

impl TryClone for DutyInForce {
    fn try_clone(&self, alloc: Global) -> Result<DutyInForce, MemoryFault> {
        match self {
            DutyInForce::Fdp(fdp) => Ok(DutyInForce::Fdp(fdp.try_clone(alloc)?)),
            DutyInForce::Ground(span) => Ok(DutyInForce::Ground(*span)),
        }
    }
}
