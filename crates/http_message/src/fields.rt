//! The fields of a head, by their names.
//! What clients send: `tests/exchanges.py`. Wrong bodies: `must-fail-more/`.
ghost use Rattle.std.specs.Prelude.{◌≡◌, ◌≤◌, ◌<◌, All, length, map, min, option_map, slice_get};
ghost use Rattle.httparse.specs.Spans.{IsHeaderWithin, header_bytes};
ghost use Rattle.http_message.specs.Fields as spec;

use httparse::spans::HeaderSpan;

/// Counts the fields of this name.
pub(crate) fn count(bytes: &[u8], spans: &[HeaderSpan], name: &[u8]) -> usize
    requires { All (IsHeaderWithin (length bytes.now)) spans.now }
    ensures { result ≡ length (spec.values name.now (map (header_bytes bytes.now) spans.now)) }
{
    let mut count = 0;
    for span in spans {
        if is_same(span.name.of(bytes), name) {
            count += 1;
        }
    }
    count
}

/// Finds the value of the first field of this name.
pub(crate) fn value<'b>(bytes: &'b [u8], spans: &[HeaderSpan], name: &[u8]) -> Option<&'b [u8]>
    requires { All (IsHeaderWithin (length bytes.now)) spans.now }
    ensures { option_map (λ v. v.now) result
        ≡ slice_get (spec.values name.now (map (header_bytes bytes.now) spans.now)) 0 }
{
    for span in spans {
        if is_same(span.name.of(bytes), name) {
            return Some(span.value.of(bytes));
        }
    }
    None
}

/// Returns whether a field of this name has this value, in any case.
pub(crate) fn has(bytes: &[u8], spans: &[HeaderSpan], name: &[u8], value: &[u8]) -> bool
    requires { All (IsHeaderWithin (length bytes.now)) spans.now }
    ensures { result
        ≡ spec.has value.now (spec.values name.now (map (header_bytes bytes.now) spans.now)) }
{
    for span in spans {
        if is_same(span.name.of(bytes), name) && is_same(span.value.of(bytes), value) {
            return true;
        }
    }
    false
}

/// Returns whether two texts are the same in any case.
pub(crate) fn is_same(a: &[u8], b: &[u8]) -> bool
    ensures { result ≡ spec.is_same a.now b.now }
{
    a.eq_ignore_ascii_case(b)
}
