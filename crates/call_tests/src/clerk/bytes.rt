//! Whole exchanges, byte for byte, whole and cut, and over channels that fail.
use crate::clerk::{serve, with_line_ends};
use http_exchange::{ChannelFault, Served};
use std::alloc::Global;
use std::test::Fail;

/// Exchanges, with line ends as `|` and LF as `_`: what is sent and, a line below, what is written.
const EXCHANGES: &str = "\
GET /exceedances HTTP/1.1|Host: x||
HTTP/1.1 200 OK|Content-Type: text/plain; charset=utf-8|Content-Length: 14|Connection: close||EXCEEDANCES 0_
HEAD /exceedances HTTP/1.1|Host: x||
HTTP/1.1 200 OK|Content-Type: text/plain; charset=utf-8|Content-Length: 14|Connection: close||
POST /requests HTTP/1.1|Host: x|Content-Length: 47||{\"number\":1,\"do\":\"cancel-ground\",\"ground\":\"G1\"}
HTTP/1.1 409 Conflict|Content-Type: application/json|Content-Length: 55|Connection: close||{\"name\":\"NoSuchGround\",\"refusal\":15,\"result\":\"refused\"}
POST /requests HTTP/1.1|Host: x|Content-Length: 47||{\"number\":1,\"do\":\"cancel-ground\",\"ground\":\"G1\"
HTTP/1.1 400 Bad Request|Content-Type: application/json|Content-Length: 31|Connection: close||{\"result\":\"error\",\"status\":400}
POST /requests HTTP/1.1|Host: x|Transfer-Encoding: chunked||
HTTP/1.1 501 Not Implemented|Content-Type: application/json|Content-Length: 31|Connection: close||{\"result\":\"error\",\"status\":501}
GET /requests HTTP/1.1|Host: x||
HTTP/1.1 405 Method Not Allowed|Content-Type: application/json|Content-Length: 31|Allow: POST|Connection: close||{\"result\":\"error\",\"status\":405}
HEAD /requests HTTP/1.1|Host: x||
HTTP/1.1 405 Method Not Allowed|Content-Type: application/json|Content-Length: 31|Allow: POST|Connection: close||
PUT /pairings/P1 HTTP/1.1|Host: x||
HTTP/1.1 405 Method Not Allowed|Content-Type: application/json|Content-Length: 31|Allow: GET, HEAD|Connection: close||{\"result\":\"error\",\"status\":405}
GET /json/exceedances HTTP/1.1|Host: x||
HTTP/1.1 200 OK|Content-Type: application/json|Content-Length: 18|Cache-Control: no-store|X-Content-Type-Options: nosniff|Cross-Origin-Resource-Policy: same-origin|Connection: close||{\"exceedances\":[]}
GET / HTTP/1.1|Host: x||
HTTP/1.1 200 OK|Content-Type: text/html; charset=utf-8|Content-Length: 16|Content-Security-Policy: default-src 'none'|Cache-Control: no-cache|X-Frame-Options: DENY|Referrer-Policy: no-referrer|Cross-Origin-Opener-Policy: same-origin|X-Content-Type-Options: nosniff|Cross-Origin-Resource-Policy: same-origin|Connection: close||<!DOCTYPE html>_
HEAD / HTTP/1.1|Host: x||
HTTP/1.1 200 OK|Content-Type: text/html; charset=utf-8|Content-Length: 16|Content-Security-Policy: default-src 'none'|Cache-Control: no-cache|X-Frame-Options: DENY|Referrer-Policy: no-referrer|Cross-Origin-Opener-Policy: same-origin|X-Content-Type-Options: nosniff|Cross-Origin-Resource-Policy: same-origin|Connection: close||
POST / HTTP/1.1|Host: x||
HTTP/1.1 405 Method Not Allowed|Content-Type: application/json|Content-Length: 31|Allow: GET, HEAD|Connection: close||{\"result\":\"error\",\"status\":405}
GET /crew/C9 HTTP/1.1|Host: x||
HTTP/1.1 404 Not Found|Content-Type: application/json|Content-Length: 52|Connection: close||{\"name\":\"NoSuchCrew\",\"refusal\":2,\"result\":\"refused\"}
HEAD /crew/C9 HTTP/1.1|Host: x||
HTTP/1.1 404 Not Found|Content-Type: application/json|Content-Length: 52|Connection: close||
HEAD /nothing HTTP/1.1|Host: x||
HTTP/1.1 404 Not Found|Content-Type: application/json|Content-Length: 31|Connection: close||
POST /requests HTTP/1.1|Host: x||
HTTP/1.1 411 Length Required|Content-Type: application/json|Content-Length: 31|Connection: close||{\"result\":\"error\",\"status\":411}
POST /requests HTTP/1.1|Host: x|Content-Length: 1048577||
HTTP/1.1 413 Payload Too Large|Content-Type: application/json|Content-Length: 31|Connection: close||{\"result\":\"error\",\"status\":413}
POST /requests HTTP/1.1|Host: x|Content-Length: 0||
HTTP/1.1 422 Unprocessable Entity|Content-Type: application/json|Content-Length: 65|Connection: close||{\"field\":\"body\",\"name\":\"BadJson\",\"refusal\":31,\"result\":\"refused\"}
POST /requests HTTP/1.1|Host: x|Expect: 100-CONTINUE|Content-Length: 47||{\"number\":1,\"do\":\"cancel-ground\",\"ground\":\"G1\"}
HTTP/1.1 100 Continue||HTTP/1.1 409 Conflict|Content-Type: application/json|Content-Length: 55|Connection: close||{\"name\":\"NoSuchGround\",\"refusal\":15,\"result\":\"refused\"}
POST /requests HTTP/1.1|Host: x|Expect: 100-continue|Content-Length: 5||stor
HTTP/1.1 100 Continue||HTTP/1.1 400 Bad Request|Content-Type: application/json|Content-Length: 31|Connection: close||{\"result\":\"error\",\"status\":400}
GET /exceedances HTTP/1.1|Host: x|Expect: 100-continue|Content-Length: 5||
HTTP/1.1 200 OK|Content-Type: text/plain; charset=utf-8|Content-Length: 14|Connection: close||EXCEEDANCES 0_
POST /requests HTTP/1.1|Host: x|Expect: 100-continue|Content-Length: 5||store
HTTP/1.1 100 Continue||HTTP/1.1 503 Service Unavailable|Content-Type: application/json|Content-Length: 48|Connection: close||{\"name\":\"Store\",\"refusal\":90,\"result\":\"refused\"}
POST /requests HTTP/1.1|Host: x|Content-Length: 6||memory
HTTP/1.1 503 Service Unavailable|Content-Type: application/json|Content-Length: 49|Connection: close||{\"name\":\"Memory\",\"refusal\":91,\"result\":\"refused\"}
";

const CONTINUE: &str = "HTTP/1.1 100 Continue||";

const CUT: &str =
    "HTTP/1.1 400 Bad Request|Content-Type: application/json|Content-Length: 31|Connection: close||{\"result\":\"error\",\"status\":400}";

/// An exchange in bytes.
#[derive(Drop)]
struct Sample {
    sent: Vec<u8>,
    /// How many bytes of it are the head.
    head: usize,
    /// What is written before a body is read.
    interim: &'static str,
    written: Vec<u8>,
}

/// The bytes of an exchange.
fn row(alloc: Global, sent: &str, written: &str) -> Result<Sample, Fail> {
    let Some((head, _body)) = sent.split_once("||") else {
        return Err(Fail::from("no head"));
    };
    let head = with_line_ends(alloc, head)?.len().saturating_add(4);
    let interim = if written.starts_with(CONTINUE) {
        CONTINUE
    } else {
        ""
    };
    Ok(Sample {
        head,
        interim,
        sent: with_line_ends(alloc, sent)?,
        written: with_line_ends(alloc, written)?,
    })
}

/// All exchanges.
fn rows(alloc: Global) -> Result<Vec<Sample>, Fail> {
    let mut rows = Vec::new(alloc);
    let mut lines = EXCHANGES.lines();
    for _ in 0..100 {
        let (Some(sent), Some(written)) = (lines.next(), lines.next()) else {
            break;
        };
        rows.push(row(alloc, sent, written)?)?;
    }
    Ok(rows)
}

#[test]
fn exchanges_byte_for_byte(rt: HostRuntime) -> Result<(), Fail> {
    for (place, row) in rows(rt.alloc())?.iter().enumerate() {
        let outcome = serve(rt.alloc(), &row.sent, false, 1_000);
        assert_eq!(rt; outcome.written, row.written, "row {place}");
        assert_eq!(rt; outcome.unread, 0, "row {place}");
    }
    Ok(())
}

/// What is written of a row that ends after this many bytes.
fn cut_response(alloc: Global, row: &Sample, length: usize) -> Result<Vec<u8>, Fail> {
    let mut bytes = interim_response(alloc, row, length)?;
    if length > 0 {
        bytes.extend_from_slice(&with_line_ends(alloc, CUT)?)?;
    }
    Ok(bytes)
}

/// What is written of a row before its body is read, if this many bytes of it come.
fn interim_response(alloc: Global, row: &Sample, length: usize) -> Result<Vec<u8>, Fail> {
    with_line_ends(alloc, if length < row.head { "" } else { row.interim })
}

/// Whether a row that ends here asks nothing, and is answered as one that is cut.
fn ends_unasked(alloc: Global, row: &Sample, cut: &[u8]) -> Result<bool, Fail> {
    let ended = serve(alloc, cut, false, 1_000);
    let is_nothing = ended.served == Ok(Served::Nothing);
    let is_told = is_nothing == cut.is_empty() && ended.asked.is_empty();
    Ok(is_told && ended.written == cut_response(alloc, row, cut.len())?)
}

/// Whether a row whose reader fails here asks nothing, and has no response.
fn fails_unasked(alloc: Global, row: &Sample, cut: &[u8]) -> Result<bool, Fail> {
    let failed = serve(alloc, cut, true, 1_000);
    let is_told = failed.served == Err(ChannelFault::Reader) && failed.asked.is_empty();
    Ok(is_told && failed.written == interim_response(alloc, row, cut.len())?)
}

#[test]
fn a_cut_request_asks_nothing(rt: HostRuntime) -> Result<(), Fail> {
    let alloc = rt.alloc();
    for (place, row) in rows(alloc)?.iter().enumerate() {
        for length in 0..row.sent.len() {
            let cut = &row.sent[..length];
            assert!(rt;
                ends_unasked(alloc, row, cut)?,
                "row {place} ends at {length}"
            );
            assert!(rt;
                fails_unasked(alloc, row, cut)?,
                "row {place} fails at {length}"
            );
        }
    }
    Ok(())
}

/// Whether a writer that takes this many bytes fails and has the front of the response, and this is asked.
fn has_front(alloc: Global, row: &Sample, room: usize, asked: &str) -> Result<bool, Fail> {
    let outcome = serve(alloc, &row.sent, false, room);
    let is_told = outcome.served == Err(ChannelFault::Writer) && outcome.asked.as_str() == asked;
    let mut taken = outcome.written;
    taken.extend_from_slice(&outcome.waiting)?;
    Ok(is_told && taken.len() == room && row.written.starts_with(&taken))
}

/// What is asked of a row that is served whole, if all of its response is written to a writer that takes no more.
fn asked_of(alloc: Global, row: &Sample) -> Result<String, Fail> {
    let whole = serve(alloc, &row.sent, false, row.written.len());
    if whole.written != row.written {
        return Err(Fail::from("a response is not whole"));
    }
    Ok(whole.asked)
}

#[test]
fn a_failing_writer_has_the_front_of_the_response(rt: HostRuntime) -> Result<(), Fail> {
    let alloc = rt.alloc();
    for (place, row) in rows(alloc)?.iter().enumerate() {
        let asked = asked_of(alloc, row)?;
        let interim = with_line_ends(alloc, row.interim)?.len();
        for room in 0..row.written.len() {
            let asked = if room < interim { "" } else { asked.as_str() };
            assert!(rt;
                has_front(alloc, row, room, asked)?,
                "row {place} at {room}"
            );
        }
    }
    Ok(())
}
