//! A body as a reader gives it.
//! What clients send: `tests/exchanges.py`. Wrong bodies: `must-fail/` and `must-fail-more/`.
ghost use Rattle.std.specs.Prelude.{◌≡◌, ◌≤◌, [], IfOk};
ghost use Rattle.std.specs.Vec.{vec_capacity};
ghost use Rattle.http_exchange.specs.Body as spec;

use http_message::{ReadFault, read_byte};
use std::io::Read;

/// What a reader has where a body is looked for.
#[derive(Drop)]
pub(crate) enum BodyRead {
    /// All of it, after which no byte was read.
    Whole(Vec<u8>),
    /// Too few bytes: the input ended.
    Cut,
}

/// Reads a body of this many bytes (RFC 9112, section 6.2) into a room that was made for it, and no byte after it.
pub(crate) fn read_body<R: Read>(
    reader: &mut R,
    room: Vec<u8>,
    length: usize,
) -> Result<BodyRead, ReadFault>
    requires empty { room.items ≡ [] }
    requires wide { length ≤ vec_capacity room }
    ensures { IfOk result
        (λ it. spec.IsBodyRead length (R.remaining reader.old) (R.remaining reader.new) it) }
{
    let mut bytes = room;
    for _count in 0..length {
        let Some(byte) = read_byte(reader)? else {
            return Ok(BodyRead::Cut);
        };
        let Ok(()) = bytes.push(byte) else {
            unreachable!();
        };
    }
    Ok(BodyRead::Whole(bytes))
}
