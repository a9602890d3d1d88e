//! The program `rosterbook`: hands its words and its streams to the library.
#![tactic(auto)]

use clap::Error;
use rosterbook::{Action, Status, action, perform, tell_refusal};
use std::io::{ErrorKind, Write};
use std::process::ExitCode;
use std::{env, io};

fn main(rt: HostRuntime) -> ExitCode {
    let (mut reader, mut out, mut err) = (rt.stdin(), rt.stdout(), rt.stderr());
    let status = match action_of_words(&rt) {
        Ok(Ok(action)) => perform(&rt, &action, &mut reader, &mut out, &mut err),
        Ok(Err(error)) => tell_refusal(&error, &mut out, &mut err),
        Err(error) => report_unread(&error, &mut err) as u8,
    };
    ExitCode::from(status)
}

/// Reads what the command line asks for, or why `clap` refuses it. An error says why its words could not be read.
fn action_of_words(rt: &HostRuntime) -> io::Result<Result<Action, Error>> {
    let alloc = rt.alloc();
    let arguments: Vec<String> = env::args(rt)?.skip(1).collect(alloc)?;
    let words: Vec<&str> = arguments.iter().map(|word| word.as_str()).collect(alloc)?;
    Ok(action(alloc, &words))
}

/// Writes why the words could not be read: memory was refused, or a word is no text.
fn report_unread<E: Write>(error: &io::Error, err: &mut E) -> Status {
    let (line, status) = match error.kind() {
        ErrorKind::OutOfMemory => ("refused 91 Memory", Status::Failed),
        _ => ("error: an argument is not UTF-8", Status::Usage),
    };
    let _ = writeln!(err, "{line}");
    status
}
