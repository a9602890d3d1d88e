//! Standard input, and the lines of standard output and standard error.
//! Inputs that are too long: `tests/transcripts/requests.txt` and `schedules.txt`; outputs that fail:
//! `tests/program.sh`. Wrong bodies: `must-fail-more/`.
ghost use Rattle.std.specs.Prelude.{◌++◌, IfOk, IfSome, OnOk};
ghost use Rattle.std.specs.Io.KnownBytes.{Appends};
ghost use Rattle.rosterbook.specs.Streams as spec;

use codec::MOST_BYTES;
use std::alloc::Global;
use std::fmt::Display;
use std::io;
use std::io::{Read, Write};

/// One byte more than a request's body or a schedule may have.
const MOST: u64 = MOST_BYTES as u64 + 1;

/// Reads what a reader gives, and no more than is needed to find it too long.
pub(crate) fn read_input<R: Read>(alloc: Global, reader: &mut R) -> io::Result<Vec<u8>>
    ensures { IfOk result (λ input. spec.ReadsInput (R.remaining reader.old) input.items) }
{
    let mut bytes = Vec::new(alloc);
    reader.take(MOST).read_to_end(&mut bytes)?;
    Ok(bytes)
}

/// Writes a line at once.
pub(crate) fn write_line<W: Write>(writer: &mut W, line: &str) -> io::Result<()>
    ensures { OnOk result
        (Appends (W.contents writer.old) (W.contents writer.new) (line.now ++ spec.line_end)) }
{
    writeln!(writer, "{line}")?;
    writer.flush()
}

/// Writes a text of lines at once.
pub(crate) fn write_text<W: Write>(writer: &mut W, text: &str) -> io::Result<()>
    ensures { OnOk result (Appends (W.contents writer.old) (W.contents writer.new) text.now) }
{
    write!(writer, "{text}")?;
    writer.flush()
}

/// Writes the line of a refusal at once.
pub(crate) fn refuse<W: Write, F: Display>(writer: &mut W, fault: &F) -> io::Result<()>
    ensures { IfSome (F.output fault.now) (λ text.
        OnOk result (Appends (W.contents writer.old) (W.contents writer.new)
        (spec.refused_line text))) }
{
    writeln!(writer, "refused {fault}")?;
    writer.flush()
}
