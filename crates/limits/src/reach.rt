//! How far the limits look. Wrong bodies: `must-fail-more/`.
ghost use Rattle.std.specs.Prelude.{◌≡◌};
ghost use Rattle.limits.specs.Reach as spec;

use duty::Span;

/// The minutes of the widest window, the 365 days of 117.23(b)(2).
const REACH: u32 = 525_600;

/// Returns whether these times end less than 365 days before a span, and begin less than 365 days after it.
fn may_meet(times: Span, span: Span) -> bool
    ensures { result ≡ spec.may_meet times span }
{
    span.from.number() < times.to.number() + REACH && times.from.number() < span.to.number() + REACH
}

/// Returns whether a window may have a minute of some of the spans and one of these times. Duties that aren't reached change no
/// judgement of duties that lie in the spans, and overlap none of them.
pub fn is_reached(spans: &[Span], times: Span) -> bool
    ensures { result ≡ spec.is_reached spans.now times }
{
    spans.iter().any(|span| may_meet(times, *span))
}
