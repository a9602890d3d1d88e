//! Exchanges of HTTP with a book in memory: whole, cut, and over channels that fail.

use crate::contents;
use crate::fault::Fault;
use crate::opening::{book_of, create, take_up};
use book::Book;
use failing_channel::{Input, Output};
use sqlite::{Alter, Connection};
use std::alloc::Global;
use std::test::Fail;
use web::{ChannelFault, Served, exchange};

/// Exchanges with one book in turn, with CR LF as `|` and LF as `_`: what is sent and, a line below, what is written.
const EXCHANGES: &str = "\
POST /requests HTTP/1.1|Host: x|Content-Length: 47||{\"number\":1,\"do\":\"cancel-ground\",\"ground\":\"G1\"}
HTTP/1.1 409 Conflict|Content-Type: application/json|Content-Length: 55|Connection: close||{\"name\":\"NoSuchGround\",\"refusal\":15,\"result\":\"refused\"}
POST /requests HTTP/1.1|Host: x|Expect: 100-continue|Content-Length: 74||{\"number\":1,\"do\":\"add-crew\",\"crew\":\"C1\",\"seat\":\"captain\",\"name\":\"Ada Ray\"}
HTTP/1.1 100 Continue||HTTP/1.1 200 OK|Content-Type: application/json|Content-Length: 38|Connection: close||{\"exceedances\":[],\"result\":\"accepted\"}
POST /requests HTTP/1.1|Host: x|Content-Length: 74||{\"do\":\"add-crew\",\"number\":1,\"crew\":\"C1\",\"seat\":\"captain\",\"name\":\"Ada Ray\"}
HTTP/1.1 200 OK|Content-Type: application/json|Content-Length: 38|Connection: close||{\"exceedances\":[],\"result\":\"accepted\"}
POST /requests HTTP/1.1|Host: x|Content-Length: 47||{\"number\":1,\"do\":\"cancel-ground\",\"ground\":\"G1\"}
HTTP/1.1 409 Conflict|Content-Type: application/json|Content-Length: 52|Connection: close||{\"name\":\"NumberUsed\",\"refusal\":1,\"result\":\"refused\"}
POST /requests HTTP/1.1|Host: x|Content-Length: 53||{\"number\":2,\"do\":\"assign\",\"pairing\":\"p1\",\"crew\":\"C1\"}
HTTP/1.1 422 Unprocessable Entity|Content-Type: application/json|Content-Length: 69|Connection: close||{\"field\":\"pairing\",\"name\":\"BadField\",\"refusal\":18,\"result\":\"refused\"}
POST /imports/500 HTTP/1.1|Host: x|Content-Length: 143||pairing,period,report,release,flight,from,out,to,in|P1,1,2025-06-10T11:00Z,2025-06-10T20:00Z,RB1,BOS,2025-06-10T12:00Z,IAD,2025-06-10T19:30Z|
HTTP/1.1 200 OK|Content-Type: application/json|Content-Length: 50|Connection: close||{\"parts\":[{\"exceedances\":[],\"result\":\"accepted\"}]}
POST /imports/501 HTTP/1.1|Host: x|Content-Length: 323||pairing,period,report,release,flight,from,out,to,in|P1,1,2025-06-10T11:00Z,2025-06-10T20:00Z,RB1,BOS,2025-06-10T12:00Z,IAD,2025-06-10T19:30Z|P2,1,2025-06-12T11:00Z,2025-06-12T20:00Z,RB1,BOS,2025-06-12T12:00Z,IAD,2025-06-12T19:30Z|P1,1,2025-06-10T11:00Z,2025-06-10T20:00Z,RB1,BOS,2025-06-10T12:00Z,IAD,2025-06-10T19:30Z|
HTTP/1.1 200 OK|Content-Type: application/json|Content-Length: 162|Connection: close||{\"parts\":[{\"name\":\"PairingExists\",\"refusal\":5,\"result\":\"refused\"},{\"exceedances\":[],\"result\":\"accepted\"},{\"name\":\"PairingExists\",\"refusal\":5,\"result\":\"refused\"}]}
POST /imports/502 HTTP/1.1|Host: x|Content-Length: 135||pairing,period,report,release,flight,from,out,to,in|P1,1,2025-06-10T11:00Z,2025-06-10T20:00Z,RB1,BOS,2025-06-10T12:00Z,IAD,2025-06-1|
HTTP/1.1 422 Unprocessable Entity|Content-Type: application/json|Content-Length: 58|Connection: close||{\"line\":2,\"name\":\"BadCsv\",\"refusal\":30,\"result\":\"refused\"}
POST /imports/503 HTTP/1.1|Host: x|Content-Length: 53||pairing,period,report,release,flight,from,out,to,in|
HTTP/1.1 200 OK|Content-Type: application/json|Content-Length: 12|Connection: close||{\"parts\":[]}
POST /requests HTTP/1.1|Host: x|Content-Length: 53||{\"number\":2,\"do\":\"assign\",\"pairing\":\"P1\",\"crew\":\"C1\"}
HTTP/1.1 200 OK|Content-Type: application/json|Content-Length: 38|Connection: close||{\"exceedances\":[],\"result\":\"accepted\"}
GET /crew/C1 HTTP/1.1|Host: x||
HTTP/1.1 200 OK|Content-Type: text/plain; charset=utf-8|Content-Length: 101|Connection: close||ROSTER C1 captain Ada Ray_2025-06-10T11:00Z 2025-06-10T20:00Z pairing P1/1 plan fdp 8:30 flight 7:30_
GET /pairings/P1 HTTP/1.1|Host: x||
HTTP/1.1 200 OK|Content-Type: text/plain; charset=utf-8|Content-Length: 148|Connection: close||PAIRING P1_captain C1_first officer -_1 plan report 2025-06-10T11:00Z release 2025-06-10T20:00Z_1.1 RB1 BOS 2025-06-10T12:00Z IAD 2025-06-10T19:30Z_
GET /exceedances HTTP/1.1|Host: x||
HTTP/1.1 200 OK|Content-Type: text/plain; charset=utf-8|Content-Length: 14|Connection: close||EXCEEDANCES 0_
GET /json/exceedances HTTP/1.1|Host: x||
HTTP/1.1 200 OK|Content-Type: application/json|Content-Length: 19|Cache-Control: no-store|X-Content-Type-Options: nosniff|Cross-Origin-Resource-Policy: same-origin|Connection: close||{\"exceedances\":[]}_
GET /json/count HTTP/1.1|Host: x||
HTTP/1.1 200 OK|Content-Type: application/json|Content-Length: 27|Cache-Control: no-store|X-Content-Type-Options: nosniff|Cross-Origin-Resource-Policy: same-origin|Connection: close||{\"count\":\"4\",\"next\":\"502\"}_
HEAD /crew/C1 HTTP/1.1|Host: x||
HTTP/1.1 200 OK|Content-Type: text/plain; charset=utf-8|Content-Length: 101|Connection: close||
GET /crew/c9 HTTP/1.1|Host: x||
HTTP/1.1 404 Not Found|Content-Type: application/json|Content-Length: 52|Connection: close||{\"name\":\"NoSuchCrew\",\"refusal\":2,\"result\":\"refused\"}
HEAD /pairings/P9 HTTP/1.1|Host: x||
HTTP/1.1 404 Not Found|Content-Type: application/json|Content-Length: 55|Connection: close||
POST /requests HTTP/1.1|Host: x|Content-Length: 87||{\"number\":3,\"do\":\"add-crew\",\"crew\":\"C5\",\"seat\":\"captain\",\"name\":\"Lee Roy\",\"base\":\"DEN\"}
HTTP/1.1 409 Conflict|Content-Type: application/json|Content-Length: 53|Connection: close||{\"name\":\"NoSuchBase\",\"refusal\":20,\"result\":\"refused\"}
POST /requests HTTP/1.1|Host: x|Content-Length: 73||{\"number\":3,\"do\":\"add-base\",\"base\":\"DEN\",\"zone\":\"MST7MDT,M3.2.0,M11.1.0\"}
HTTP/1.1 200 OK|Content-Type: application/json|Content-Length: 38|Connection: close||{\"exceedances\":[],\"result\":\"accepted\"}
POST /requests HTTP/1.1|Host: x|Content-Length: 73||{\"number\":4,\"do\":\"add-base\",\"base\":\"DEN\",\"zone\":\"MST7MDT,M3.2.0,M11.1.0\"}
HTTP/1.1 409 Conflict|Content-Type: application/json|Content-Length: 53|Connection: close||{\"name\":\"BaseExists\",\"refusal\":21,\"result\":\"refused\"}
POST /requests HTTP/1.1|Host: x|Content-Length: 87||{\"number\":4,\"do\":\"add-crew\",\"crew\":\"C5\",\"seat\":\"captain\",\"name\":\"Lee Roy\",\"base\":\"DEN\"}
HTTP/1.1 200 OK|Content-Type: application/json|Content-Length: 38|Connection: close||{\"exceedances\":[],\"result\":\"accepted\"}
GET /crew/C5 HTTP/1.1|Host: x||
HTTP/1.1 200 OK|Content-Type: text/plain; charset=utf-8|Content-Length: 35|Connection: close||ROSTER C5 captain Lee Roy_base DEN_
POST /lines/checks HTTP/1.1|Host: x|Content-Length: 153||{\"number\":5,\"do\":\"add-crew\",\"crew\":\"C6\",\"seat\":\"captain\",\"name\":\"Lee Roy\"}__{}_{\"number\":6,\"do\":\"add-crew\",\"crew\":\"C6\",\"seat\":\"captain\",\"name\":\"Lee Roy\"}
HTTP/1.1 200 OK|Content-Type: application/json|Content-Length: 159|Connection: close||{\"answers\":[{\"exceedances\":[],\"result\":\"accepted\"},{\"field\":\"number\",\"name\":\"BadJson\",\"refusal\":31,\"result\":\"refused\"},{\"exceedances\":[],\"result\":\"accepted\"}]}
POST /lines HTTP/1.1|Host: x|Content-Length: 153||{\"number\":5,\"do\":\"add-crew\",\"crew\":\"C6\",\"seat\":\"captain\",\"name\":\"Lee Roy\"}__{}_{\"number\":6,\"do\":\"add-crew\",\"crew\":\"C6\",\"seat\":\"captain\",\"name\":\"Lee Roy\"}
HTTP/1.1 200 OK|Content-Type: application/json|Content-Length: 173|Connection: close||{\"answers\":[{\"exceedances\":[],\"result\":\"accepted\"},{\"field\":\"number\",\"name\":\"BadJson\",\"refusal\":31,\"result\":\"refused\"},{\"name\":\"CrewExists\",\"refusal\":3,\"result\":\"refused\"}]}
GET /crew/C6 HTTP/1.1|Host: x||
HTTP/1.1 200 OK|Content-Type: text/plain; charset=utf-8|Content-Length: 26|Connection: close||ROSTER C6 captain Lee Roy_
";

/// Which exchange of a row is tried, by its reader and its writer.
#[derive(Clone, Copy, Debug)]
enum Trial {
    /// The whole request.
    Whole,
    /// The request cut after this many bytes.
    Cut(usize),
    /// The same, over a reader that fails then.
    Torn(usize),
    /// The whole request, over a writer that takes this many bytes.
    Narrow(usize),
}

/// How an exchange ended.
#[derive(Clone, Copy, Debug, PartialEq, Eq)]
enum Ending {
    Answered,
    Nothing,
    ReaderFailed,
    WriterFailed,
}

/// How an exchange ended, and what was written.
fn exchange_over<S: Alter>(
    alloc: Global,
    book: &mut Book<S>,
    sent: &[u8],
    trial: Trial,
) -> Result<(Ending, Vec<u8>), Fault> {
    let (length, fails, room) = match trial {
        Trial::Whole => (sent.len(), false, usize::MAX),
        Trial::Cut(length) => (length, false, usize::MAX),
        Trial::Torn(length) => (length, true, usize::MAX),
        Trial::Narrow(room) => (sent.len(), false, room),
    };
    let mut reader = Input::new(sent.get(..length).unwrap_or(sent), fails);
    let mut writer = Output::new(alloc, room);
    let ending = match exchange(alloc, &mut reader, &mut writer, book) {
        Ok(Served::Answered(_)) => Ending::Answered,
        Ok(Served::Nothing) => Ending::Nothing,
        Err(ChannelFault::Reader) => Ending::ReaderFailed,
        Err(ChannelFault::Writer) => Ending::WriterFailed,
    };
    let mut written = writer.flushed;
    written.extend_from_slice(&writer.waiting)?;
    Ok((ending, written))
}

const CONTINUE: &str = "HTTP/1.1 100 Continue||";

const CUT: &str =
    "HTTP/1.1 400 Bad Request|Content-Type: application/json|Content-Length: 31|Connection: close||{\"result\":\"error\",\"status\":400}";

/// An exchange in bytes.
#[derive(Drop)]
struct Sample {
    /// Which of the exchanges it is, from 0.
    place: usize,
    sent: Vec<u8>,
    /// How many bytes of it are the head.
    head: usize,
    written: Vec<u8>,
}

/// A text in bytes.
fn bytes_of(alloc: Global, text: &str) -> Result<Vec<u8>, Fault> {
    let mut bytes = Vec::new(alloc);
    for byte in text.bytes() {
        match byte {
            b'|' => bytes.extend_from_slice(b"\r\n")?,
            b'_' => bytes.push(b'\n')?,
            _ => bytes.push(byte)?,
        }
    }
    Ok(bytes)
}

fn sample_of(alloc: Global, place: usize, sent: &str, written: &str) -> Result<Sample, Fault> {
    let head = sent.split("||").next().unwrap_or(sent);
    Ok(Sample {
        place,
        sent: bytes_of(alloc, sent)?,
        head: bytes_of(alloc, head)?.len().saturating_add(4),
        written: bytes_of(alloc, written)?,
    })
}

/// All exchanges.
fn samples(alloc: Global) -> Result<Vec<Sample>, Fault> {
    let mut samples = Vec::new(alloc);
    let mut lines = EXCHANGES.lines();
    for place in 0..100 {
        let (Some(sent), Some(written)) = (lines.next(), lines.next()) else {
            break;
        };
        samples.push(sample_of(alloc, place, sent, written)?)?;
    }
    Ok(samples)
}

/// What is written before the body, where this many bytes of the request come.
fn interim(alloc: Global, sample: &Sample, length: usize) -> Result<Vec<u8>, Fault> {
    let front = bytes_of(alloc, CONTINUE)?;
    if length < sample.head || !sample.written.starts_with(&front) {
        return Ok(Vec::new(alloc));
    }
    Ok(front)
}

/// How an exchange is to end, and what is to be written.
fn ending_of(alloc: Global, sample: &Sample, trial: Trial) -> Result<(Ending, Vec<u8>), Fault> {
    match trial {
        Trial::Whole => Ok((
            Ending::Answered,
            copy_of(alloc, &sample.written, usize::MAX)?,
        )),
        Trial::Cut(0) => Ok((Ending::Nothing, Vec::new(alloc))),
        Trial::Cut(length) => {
            let mut bytes = interim(alloc, sample, length)?;
            bytes.extend_from_slice(&bytes_of(alloc, CUT)?)?;
            Ok((Ending::Answered, bytes))
        }
        Trial::Torn(length) => Ok((Ending::ReaderFailed, interim(alloc, sample, length)?)),
        Trial::Narrow(room) => Ok((Ending::WriterFailed, copy_of(alloc, &sample.written, room)?)),
    }
}

/// A copy of the first bytes.
fn copy_of(alloc: Global, bytes: &[u8], length: usize) -> Result<Vec<u8>, Fault> {
    let mut copy = Vec::new(alloc);
    copy.extend_from_slice(bytes.get(..length).unwrap_or(bytes))?;
    Ok(copy)
}

/// Tries an exchange, and adds a line where it isn't as it is to be.
fn try_one<S: Alter>(
    alloc: Global,
    book: &mut Book<S>,
    sample: &Sample,
    trial: Trial,
    text: &mut String,
) -> Result<(), Fault> {
    let wanted = ending_of(alloc, sample, trial)?;
    let found = exchange_over(alloc, book, &sample.sent, trial)?;
    if found != wanted {
        let line = format!(in alloc; "{trial:?} of row {}: {:?}\n", sample.place, found.0)?;
        text.push_str(&line)?;
    }
    Ok(())
}

/// Tries each request cut short, and by a reader that fails.
fn try_cut<S: Alter>(
    alloc: Global,
    book: &mut Book<S>,
    samples: &[Sample],
    text: &mut String,
) -> Result<(), Fault> {
    for sample in samples {
        for length in 0..sample.sent.len() {
            try_one(alloc, book, sample, Trial::Cut(length), text)?;
            try_one(alloc, book, sample, Trial::Torn(length), text)?;
        }
    }
    Ok(())
}

/// Tries each request by a writer that fails, and then whole.
fn try_whole<S: Alter>(
    alloc: Global,
    book: &mut Book<S>,
    samples: &[Sample],
    text: &mut String,
) -> Result<(), Fault> {
    for sample in samples {
        for room in 0..sample.written.len() {
            try_one(alloc, book, sample, Trial::Narrow(room), text)?;
        }
        try_one(alloc, book, sample, Trial::Whole, text)?;
    }
    Ok(())
}

/// Tries with a new book what leaves it as it is, and notes its rows; and then what it keeps.
fn try_all<S: Alter + Drop>(alloc: Global, conn: Connection<S>) -> Result<String, Fault> {
    let samples = samples(alloc)?;
    let mut text = String::new(alloc);
    let mut book = book_of(create(alloc, conn))?;
    try_cut(alloc, &mut book, &samples, &mut text)?;
    let mut conn = book.into_connection();
    text.push_str(&contents::rows_of(alloc, &mut conn)?)?;
    let mut book = book_of(take_up(alloc, conn))?;
    try_whole(alloc, &mut book, &samples, &mut text)?;
    Ok(text)
}

/// A request that is cut, and one whose reader fails, changes nothing. One whose writer fails is answered when it is made again as it
/// would have been.
#[test]
fn exchanges_come_to_what_is_stated(rt: HostRuntime) -> Result<(), Fail> {
    let conn = Connection::open_in_memory(rt.alloc())?;
    let text = try_all(rt.alloc(), conn)?;
    assert_eq!(rt;
        text.as_str(),
        "base HOME|EST5EDT,M3.2.0,M11.1.0\nbook 1|2|EST5EDT,M3.2.0,M11.1.0\n"
    );
    Ok(())
}
