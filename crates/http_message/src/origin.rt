//! Whether a page of another site may have sent a head. The definitions are in `specs/Origin.antt`.
//! What clients send: `tests/exchanges.py`. Wrong bodies: `must-fail/` and `must-fail-more/`.
ghost use Rattle.std.specs.Prelude.{◌≡◌, All, codes, length, map};
ghost use Rattle.std.specs.List.{list_all};
ghost use Rattle.httparse.specs.Spans.{IsHeaderWithin, header_bytes};
ghost use Rattle.http_message.specs.Fields.{values};
ghost use Rattle.http_message.specs.Origin as spec;
ghost use Rattle.http_message.specs.Plan as plan;

use crate::fields::is_same;
use crate::head::Head;
use crate::target::find;
use httparse::spans::HeaderSpan;

/// Returns whether a page of another site may have sent a head.
pub(crate) fn is_foreign(head: &Head) -> bool
    ensures { result ≡ plan.is_foreign head.now }
{
    !is_own(head) || is_embedded(head)
}

/// Returns whether a browser says that such a page asks for a part of itself (Fetch Metadata, `Sec-Fetch-Site`).
fn is_embedded(head: &Head) -> bool
    ensures { result ≡ spec.is_embedded (values (codes "sec-fetch-site") head.now.fields)
        (values (codes "sec-fetch-dest") head.now.fields) }
{
    let is_of_another_site = head.has(b"sec-fetch-site", b"cross-site")
        || head.has(b"sec-fetch-site", b"same-site");
    is_of_another_site && !head.has(b"sec-fetch-dest", b"document")
}

/// Returns whether each host of a head is local, and no page of another origin sent it.
fn is_own(head: &Head) -> bool
    ensures { result ≡ spec.is_own (values (codes "host") head.now.fields)
        (values (codes "origin") head.now.fields) }
{
    head.is_each_host_local() && are_of_host(head)
}

/// Returns whether a head has no `Origin`, or one, which is that of its one `Host`.
fn are_of_host(head: &Head) -> bool
    ensures { result ≡ spec.are_of_host (values (codes "host") head.now.fields)
        (values (codes "origin") head.now.fields) }
{
    match head.count(b"origin") {
        0 => true,
        1 => is_of_host(head),
        _ => false,
    }
}

/// Returns the same where there is one `Origin`.
fn is_of_host(head: &Head) -> bool
    requires { length (values (codes "origin") head.now.fields) ≡ 1 }
    ensures { result ≡ spec.are_of_host (values (codes "host") head.now.fields)
        (values (codes "origin") head.now.fields) }
{
    let Some(origin) = head.value(b"origin") else {
        unreachable!();
    };
    match head.value(b"host") {
        Some(host) => head.count(b"host") == 1 && is_origin_of(origin, host),
        None => false,
    }
}

/// Returns whether an origin is that of a host.
fn is_origin_of(origin: &[u8], host: &[u8]) -> bool
    ensures { result ≡ spec.is_origin_of origin.now host.now }
{
    origin.len() >= 7 && is_same(&origin[..7], b"http://") && is_same(&origin[7..], host)
}

/// Returns whether each host among these fields is local.
pub(crate) fn is_each_host_local(bytes: &[u8], spans: &[HeaderSpan]) -> bool
    requires { All (IsHeaderWithin (length bytes.now)) spans.now }
    ensures { result ≡ list_all spec.is_local
        (values (codes "host") (map (header_bytes bytes.now) spans.now)) }
{
    for span in spans {
        if is_same(span.name.of(bytes), b"host") && !is_local(span.value.of(bytes)) {
            return false;
        }
    }
    true
}

/// Returns whether a host is this machine, or a bare name.
fn is_local(host: &[u8]) -> bool
    ensures { result ≡ spec.is_local host.now }
{
    let name = host_name(host);
    is_same(name, b"localhost") || is_same(name, b"127.0.0.1") || is_bare(host)
}

/// Returns a host without its port.
fn host_name(host: &[u8]) -> &[u8]
    ensures { result.now ≡ spec.host_name host.now }
{
    match find(host, b':') {
        Some(end) => &host[..end],
        None => host,
    }
}

/// Returns whether a host has neither dot nor colon.
fn is_bare(host: &[u8]) -> bool
    ensures { result ≡ list_all spec.is_name_byte host.now }
{
    host.iter().all(|b| is_name_byte(*b))
}

fn is_name_byte(byte: u8) -> bool
    ensures { result ≡ spec.is_name_byte byte }
{
    byte != b'.' && byte != b':'
}
