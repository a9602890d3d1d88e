//! Exchanges of HTTP over memory, with a handler that notes what it is asked.
mod bytes;
mod heads;
mod notes;

use crate::clerk::notes::Clerk;
use failing_channel::{Input, Output};
use http_exchange::{ChannelFault, Served, exchange};
use std::alloc::Global;
use std::test::Fail;

/// What came of an exchange.
#[derive(Drop)]
struct Outcome {
    served: Result<Served, ChannelFault>,
    /// How many bytes of the input are unread.
    unread: usize,
    /// What was asked, or nothing.
    asked: String,
    /// What was written and handed on.
    written: Vec<u8>,
    /// What was written and not handed on.
    waiting: Vec<u8>,
}

/// Serves an input by a writer that takes this many bytes; where the reader fails, it does at the input's end.
fn serve(alloc: Global, input: &[u8], fails: bool, room: usize) -> Outcome {
    let mut reader = Input::new(input, fails);
    let mut writer = Output::new(alloc, room);
    let mut asked = String::new(alloc);
    let served = exchange(alloc, &mut reader, &mut writer, &Clerk, &mut asked);
    Outcome {
        served,
        unread: reader.bytes_unread(),
        asked,
        written: writer.flushed,
        waiting: writer.waiting,
    }
}

/// A text whose line ends stand as `|`, and LF as `_`.
fn with_line_ends(alloc: Global, text: &str) -> Result<Vec<u8>, Fail> {
    let mut bytes = Vec::new(alloc);
    for byte in text.bytes() {
        match byte {
            b'|' => bytes.extend_from_slice(b"\r\n")?,
            b'_' => bytes.push(b'\n')?,
            _ => bytes.push(byte)?,
        }
    }
    Ok(bytes)
}
