//! How a limit on windows is tried: of all windows of minutes a few suffice, which `specs/Laws/SumRule.antt` proves.
//! Against a count over every window: `tests/judgement.py`. Wrong bodies: `must-fail/` and `must-fail-more/`.
ghost use Rattle.std.specs.Prelude.{◌≡◌, ◌<◌, ◌^◌, ◌↔◌, IsTrue};
ghost use Rattle.std.specs.List.{list_any, flat_map};
ghost use Rattle.duty.specs.Minutes.{spans_of, minutes_in};
ghost use Rattle.limits.specs.Rules.{IsOver};
ghost use Rattle.limits.specs.Laws.Windows.{reaches};

use duty::{History, Kind, Span, SpanTest, any_span};

/// Returns whether one of the `width` minutes before `end` is a minute of that kind.
pub(crate) fn is_reached(history: &History, kind: Kind, end: u64, width: u32) -> bool
    requires { 0 < width }
    ensures { result ≡ list_any (reaches end width) (flat_map (spans_of kind) history.now) }
{
    history.meets(kind, end, width as u64)
}

/// A rule on windows of `width` minutes: those that meet the new minutes of a kind hold at most `most` of all.
#[derive(Drop)]
struct WindowRule<'a> {
    all: &'a History,
    new: &'a History,
    kind: Kind,
    width: u32,
    most: u64,
    ghost some: { 0 < width },
}

/// Whether the window that ends where a span ends breaks the rule.
#[derive(Drop)]
struct AtEnd<'a> {
    rule: &'a WindowRule<'a>,
}

impl SpanTest for AtEnd<'_> {
    ghost use Rattle.std.specs.List.{flat_map};
    ghost use Rattle.duty.specs.Minutes.{spans_of};
    ghost use Rattle.limits.specs.Laws.Windows.{end_is_over};

    ghost passes = { λ test span. let rule = test.rule.now in
        end_is_over (flat_map (spans_of rule.kind) rule.all.now)
        (flat_map (spans_of rule.kind) rule.new.now) rule.width rule.most span };

    fn passes(&self, span: Span) -> bool {
        let rule = self.rule;
        let end = span.to.number() as u64;
        let width = rule.width;
        rule.most < rule.all.minutes_before(rule.kind, end, width as u64)
            && is_reached(rule.new, rule.kind, end, width)
    }
}

/// Whether the window that ends with the first minute of a new span, or the one that begins with its last, breaks the
/// rule.
#[derive(Drop)]
struct AtEdge<'a> {
    rule: &'a WindowRule<'a>,
}

impl SpanTest for AtEdge<'_> {
    ghost use Rattle.std.specs.List.{flat_map};
    ghost use Rattle.duty.specs.Minutes.{spans_of};
    ghost use Rattle.limits.specs.Laws.Windows.{edge_is_over};

    ghost passes = { λ test span. let rule = test.rule.now in
        edge_is_over (flat_map (spans_of rule.kind) rule.all.now) rule.width rule.most span };

    fn passes(&self, span: Span) -> bool {
        let rule = self.rule;
        let width = rule.width as u64;
        let from = span.from.number() as u64;
        let to = span.to.number() as u64;
        from < to
            && (rule.most < rule.all.minutes_before(rule.kind, from + 1, width)
                || rule.most < rule.all.minutes_before(rule.kind, to - 1 + width, width))
    }
}

/// Returns whether some `width` minutes in a row meet the new minutes of that kind and hold more than `most` of all. It
/// tries the windows that end where the minutes of an interval end and that the new ones may reach, those that end with
/// the first minute of a new span, and those that begin with its last: where any window breaks the rule, one of these
/// does.
pub(crate) fn is_over(all: &History, new: &History, kind: Kind, width: u32, most: u64) -> bool
    requires { 0 < width }
    ensures { IsTrue result
        ↔ IsOver width most (minutes_in kind all.now) (minutes_in kind new.now) }
{
    let Some(hull) = new.intervals(kind).hull() else {
        return false;
    };
    let after = hull.from.number();
    let before = hull.to.number() as u64 + width as u64;
    let rule = WindowRule {
        all,
        new,
        kind,
        width,
        most,
    };
    all.intervals(kind)
        .any_ending(after, before, &AtEnd { rule: &rule })
        || any_span(new.duties(), kind, &AtEdge { rule: &rule })
}
