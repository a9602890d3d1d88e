//! Searches through duties and through their spans, by a test that contracts can name.
//! Wrong bodies: `must-fail-more/`.
ghost use Rattle.std.specs.Prelude.{◌≡◌, Bool};
ghost use Rattle.std.specs.List.{list_any, flat_map};
ghost use Rattle.duty.specs.Minutes.{spans_of};
ghost use Rattle.duty.specs.declared.duty_in_force.DutyInForce.{DutyInForce as InForce};
ghost use Rattle.duty.specs.declared.span.Span.{Span as Minutes};

use super::duty_in_force::DutyInForce;
use super::kind::Kind;
use super::span::Span;

/// A test of a span.
pub trait SpanTest {
    ghost passes: { Self → Minutes → Bool };

    /// Returns whether the span passes.
    fn passes(&self, span: Span) -> bool
        ensures { result ≡ passes self.now span };
}

/// Returns whether some span of that kind of the duties passes.
pub fn any_span<T: SpanTest>(duties: &[DutyInForce], kind: Kind, test: &T) -> bool
    ensures { result ≡ list_any (T.passes test.now) (flat_map (spans_of kind) duties.now) }
{
    for duty in duties {
        if any_span_of(duty, kind, test) {
            return true;
        }
    }
    false
}

/// Returns whether some span of that kind of the duty passes.
fn any_span_of<T: SpanTest>(duty: &DutyInForce, kind: Kind, test: &T) -> bool
    ensures { result ≡ list_any (T.passes test.now) (spans_of kind duty.now) }
{
    for index in 0..duty.span_count(kind) {
        if test.passes(duty.span_at(kind, index)) {
            return true;
        }
    }
    false
}

/// A test of a duty.
pub trait DutyTest {
    ghost passes: { Self → InForce → Bool };

    /// Returns whether the duty passes.
    fn passes(&self, duty: &DutyInForce) -> bool
        ensures { result ≡ passes self.now duty.now };
}

/// Returns whether some duty passes.
pub fn any_duty<T: DutyTest>(duties: &[DutyInForce], test: &T) -> bool
    ensures { result ≡ list_any (T.passes test.now) duties.now }
{
    for duty in duties {
        if test.passes(duty) {
            return true;
        }
    }
    false
}
