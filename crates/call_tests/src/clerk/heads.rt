//! What heads and lengths come to.
use crate::clerk::{serve, with_line_ends};
use http::StatusCode;
use http_exchange::Served;
use std::alloc::Global;
use std::test::Fail;

/// Inputs with line ends as `|`, and after ` => ` the status, how many bytes are left unread, and what is asked.
const INPUTS: &str = "\
|| => 400 - 
 => 0 0 
||GET /exceedances HTTP/1.1|Host: x||more => 200 4 Text of Exceedances
GET /exceedances HTTP/1.1|hOsT:x|| => 200 0 Text of Exceedances
GET /exceedances HTTP/1.1|Host: x|A: b| c|| => 400 - 
GET /exceedances HTTP/1.1|Host : x|| => 400 - 
GET /exceedances HTTP/1.1|Host: x| => 400 - 
GET /exceedances HTTP/1.1|| => 400 - 
GET /exceedances HTTP/1.1|Host: x|Host: x|| => 400 - 
GET /exceedances HTTP/1.0|| => 200 0 Text of Exceedances
GET /exceedances HTTP/1.0|Host: x|Host: y|| => 200 0 Text of Exceedances
GET /exceedances HTTP/1.2|Host: x|| => 400 - 
GET /exceedances|Host: x|| => 400 - 
POST /requests HTTP/1.1|Transfer-Encoding: chunked|| => 400 - 
DELETE /nothing HTTP/1.1|Host: x|transfer-encoding: gzip|| => 501 0 
GET http://a.b:80/crew/C9?x=/y HTTP/1.1|Host: x|| => 404 0 Text of Crew(\"C9\")
GET HTTP://a.b/exceedances HTTP/1.1|Host: x|| => 200 0 Text of Exceedances
GET http://a.b HTTP/1.1|Host: x|| => 200 0 desk
GET http://a.b?/exceedances HTTP/1.1|Host: x|| => 200 0 desk
GET / HTTP/1.1|Host: x||more => 200 4 desk
HEAD /?x HTTP/1.1|Host: x|| => 200 0 desk
GET // HTTP/1.1|Host: x|| => 404 0 
POST / HTTP/1.1|Host: x|Content-Length: 2||ab => 405 2 
GET https://a.b/exceedances HTTP/1.1|Host: x|| => 404 0 
GET /exceedances?of=C9 HTTP/1.1|Host: x|| => 200 0 Text of Exceedances
GET /crew/%439 HTTP/1.1|Host: x|| => 200 0 Text of Crew(\"%439\")
GET /crew/C9/ HTTP/1.1|Host: x|| => 404 0 
GET /crew/ HTTP/1.1|Host: x|| => 404 0 
GET /crew HTTP/1.1|Host: x|| => 404 0 
GET //crew/C9 HTTP/1.1|Host: x|| => 404 0 
GET /crew/C9/x HTTP/1.1|Host: x|| => 404 0 
GET /exceedances/ HTTP/1.1|Host: x|| => 404 0 
GET /pairings/P1 HTTP/1.1|Host: x|Content-Length: 3||abc => 200 3 Text of Pairing(\"P1\")
GET /reports/limits/C1 HTTP/1.1|Host: x|| => 200 0 Text of Limits { crew: \"C1\", with: None }
HEAD /reports/limits/C1/P1 HTTP/1.1|Host: x|| => 200 0 Text of Limits { crew: \"C1\", with: Some(\"P1\") }
GET /reports/limits/%20/é?with=P2 HTTP/1.1|Host: x|| => 200 0 Text of Limits { crew: \"%20\", with: Some(\"é\") }
GET /reports/limits HTTP/1.1|Host: x|| => 404 0 
GET /reports/limits/ HTTP/1.1|Host: x|| => 404 0 
GET /reports/limits//P1 HTTP/1.1|Host: x|| => 404 0 
GET /reports/limits/C1/ HTTP/1.1|Host: x|| => 404 0 
GET /reports/limits/C1/P1/ HTTP/1.1|Host: x|| => 404 0 
GET /reports/limits/C1/P1/2 HTTP/1.1|Host: x|| => 404 0 
POST /reports/limits/C1/P1 HTTP/1.1|Host: x|| => 405 0 
GET /json/exceedances HTTP/1.1|Host: x||more => 200 4 Json of Exceedances
HEAD http://a.b/json/crew/C1 HTTP/1.1|Host: x|| => 200 0 Json of Crew(\"C1\")
GET /json/pairings/P1 HTTP/1.1|Host: x|| => 200 0 Json of Pairing(\"P1\")
GET /json/reports/limits/C1/P1?a=b HTTP/1.1|Host: x|| => 200 0 Json of Limits { crew: \"C1\", with: Some(\"P1\") }
GET /json/reports/members HTTP/1.1|Host: x|| => 200 0 Json of Members
GET /json/reports/open HTTP/1.1|Host: x|| => 200 0 Json of Pairings(Open)
GET /crew/json HTTP/1.1|Host: x|| => 200 0 Text of Crew(\"json\")
GET /json HTTP/1.1|Host: x|| => 404 0 
GET /json/ HTTP/1.1|Host: x|| => 404 0 
GET /jsoncrew/C1 HTTP/1.1|Host: x|| => 404 0 
GET /JSON/exceedances HTTP/1.1|Host: x|| => 404 0 
GET /json/json/exceedances HTTP/1.1|Host: x|| => 404 0 
GET //json/exceedances HTTP/1.1|Host: x|| => 404 0 
POST /json/exceedances HTTP/1.1|Host: x|Content-Length: 2||ab => 405 2 
GET /json/count HTTP/1.1|Host: x||more => 200 4 count
HEAD http://a.b/json/count?x HTTP/1.1|Host: x|| => 200 0 count
POST /json/count HTTP/1.1|Host: x|Content-Length: 2||ab => 405 2 
GET /json/count/ HTTP/1.1|Host: x|| => 404 0 
GET /count HTTP/1.1|Host: x|| => 404 0 
POST /count HTTP/1.1|Host: x|Content-Length: 2||ab => 404 2 
POST /json/requests HTTP/1.1|Host: x|Content-Length: 2||ab => 404 2 
GET /json/checks HTTP/1.1|Host: x|| => 404 0 
POST /json/imports/1 HTTP/1.1|Host: x|Content-Length: 2||ab => 404 2 
POST /lines HTTP/1.1|Host: x|Content-Length: 2||abc => 200 1 lines ab
POST /lines?x HTTP/1.1|Host: x|Content-Length: 0|| => 200 0 lines 
POST /lines/checks HTTP/1.1|Host: x|Content-Length: 2||ab => 200 0 line checks ab
POST /lines/ HTTP/1.1|Host: x|Content-Length: 2||ab => 404 2 
POST /lines/check HTTP/1.1|Host: x|Content-Length: 2||ab => 404 2 
POST /line HTTP/1.1|Host: x|Content-Length: 2||ab => 404 2 
POST /json/lines HTTP/1.1|Host: x|Content-Length: 2||ab => 404 2 
GET /lines HTTP/1.1|Host: x|| => 405 0 
GET /lines/checks HTTP/1.1|Host: x|| => 405 0 
get /exceedances HTTP/1.1|Host: x|| => 405 0 
POST /crew/C9 HTTP/1.1|Host: x|| => 405 0 
GET /imports/1 HTTP/1.1|Host: x|| => 405 0 
GET /imports/01 HTTP/1.1|Host: x|| => 404 0 
DELETE /nothing HTTP/1.1|Host: x|| => 404 0 
POST /imports/0 HTTP/1.1|Host: x|| => 404 0 
POST /imports/01 HTTP/1.1|Host: x|| => 404 0 
POST /imports/+1 HTTP/1.1|Host: x|| => 404 0 
POST /imports/9223372036854775808 HTTP/1.1|Host: x|| => 404 0 
POST /imports/99999999999999999999 HTTP/1.1|Host: x|| => 404 0 
POST /imports/9223372036854775807 HTTP/1.1|Host: x|Content-Length: 3||a,brest => 200 4 import 9223372036854775807 a,b
POST /requests HTTP/1.1|Host: x|Content-Length: \t 002\t ||abcd => 200 2 command ab
POST /requests HTTP/1.0|Content-Length: 0000000000000000000000000000000000000005||store => 503 0 command store
POST /requests HTTP/1.1|Host: x|Content-Length: 9999999999999999999999999999999999999999||ab => 413 2 
POST /requests HTTP/1.1|Host: x|Content-Length: 1048577||ab => 413 2 
POST /requests HTTP/1.1|Host: x|Content-Length: 1048576||ab => 400 - 
POST /requests HTTP/1.1|Host: x|Content-Length: 5, 5||abcde => 400 - 
POST /requests HTTP/1.1|Host: x|Content-Length: +5||abcde => 400 - 
POST /requests HTTP/1.1|Host: x|Content-Length: -5||abcde => 400 - 
POST /requests HTTP/1.1|Host: x|Content-Length: 5 5||abcde => 400 - 
POST /requests HTTP/1.1|Host: x|Content-Length:||abcde => 400 - 
POST /requests HTTP/1.1|Host: x|Content-Length: 5|Content-Length: 5||abcde => 400 - 
POST /requests HTTP/1.1|Host: x|Content-Length: 0|| => 422 0 command 
POST /requests HTTP/1.1|Host: x||ab => 411 2 
";

/// What an input comes to, in words. At 400 it isn't stated what of a bad head is left unread.
fn outcome_of(alloc: Global, input: &[u8]) -> Result<String, Fail> {
    let outcome = serve(alloc, input, false, 1_000);
    let asked = &outcome.asked;
    match outcome.served {
        Ok(Served::Answered(StatusCode::BAD_REQUEST)) => Ok(format!(in alloc; "400 - {asked}")?),
        Ok(Served::Answered(status)) => {
            Ok(format!(in alloc; "{} {} {asked}", status.as_u16(), outcome.unread)?)
        }
        Ok(Served::Nothing) => Ok(format!(in alloc; "0 {} {asked}", outcome.unread)?),
        Err(fault) => Ok(format!(in alloc; "{fault:?}")?),
    }
}

#[test]
fn each_head_and_length_comes_to_what_is_stated(rt: HostRuntime) -> Result<(), Fail> {
    for line in INPUTS.lines() {
        let Some((input, want)) = line.split_once(" => ") else {
            return Err(Fail::from("a line without an answer"));
        };
        let input_bytes = with_line_ends(rt.alloc(), input)?;
        assert_eq!(rt;
            outcome_of(rt.alloc(), &input_bytes)?.as_str(),
            want,
            "at {input}"
        );
    }
    Ok(())
}

#[test]
fn bytes_that_are_no_text_come_to_what_is_stated(rt: HostRuntime) -> Result<(), Fail> {
    let alloc = rt.alloc();
    let feeds = b"GET /exceedances HTTP/1.1\nHost: x\n\nmore".as_slice();
    assert_eq!(rt;
        outcome_of(alloc, feeds)?.as_str(),
        "200 4 Text of Exceedances"
    );
    let nul = b"GET /exceedances HTTP/1.1\r\nHost: x\0\r\n\r\n".as_slice();
    assert_eq!(rt; outcome_of(alloc, nul)?.as_str(), "400 - ");
    let no_text = b"GET /crew/\xff HTTP/1.1\r\nHost: x\r\n\r\n".as_slice();
    assert_eq!(rt; outcome_of(alloc, no_text)?.as_str(), "400 - ");
    Ok(())
}

/// A head with a field whose value has this many bytes, and this many fields beside it.
fn head(alloc: Global, length: usize, fields: usize) -> Result<Vec<u8>, Fail> {
    let mut bytes = with_line_ends(alloc, "GET /exceedances HTTP/1.0|A: ")?;
    for _ in 0..length {
        bytes.push(b'a')?;
    }
    for _ in 0..fields {
        bytes.extend_from_slice(b"\r\nB:")?;
    }
    bytes.extend_from_slice(b"\r\n\r\n")?;
    Ok(bytes)
}

#[test]
fn a_head_has_at_most_16_384_bytes_and_64_fields(rt: HostRuntime) -> Result<(), Fail> {
    let alloc = rt.alloc();
    let around = head(alloc, 0, 0)?.len();
    for &(length, fields, want) in &[
        (
            16_384usize.saturating_sub(around),
            0,
            "200 0 Text of Exceedances",
        ),
        (16_385usize.saturating_sub(around), 0, "400 - "),
        (20_000, 0, "400 - "),
        (1, 63, "200 0 Text of Exceedances"),
        (1, 64, "400 - "),
    ] {
        let input = head(alloc, length, fields)?;
        assert_eq!(rt;
            outcome_of(alloc, &input)?.as_str(),
            want,
            "{length} bytes and {fields} fields"
        );
    }
    Ok(())
}
