//! How the program answers what a command line asks for, and how it ends. Its definition is `PerformsAction`
//! (`specs/Program.antt`).
//! Each subcommand, and outputs that fail: `tests/program.sh`. Wrong bodies: `must-fail-more/`.
ghost use Rattle.std.specs.Prelude.{◌≡◌, ◌≢◌, true, IfErr, IfOk, IfSome, IsErr, None};
ghost use Rattle.std.specs.Io.KnownBytes.{Appends};
ghost use Rattle.sqlite_wal.specs.Files.{image_at};
ghost use Rattle.rosterbook.specs.ByFiles as by_files;
ghost use Rattle.rosterbook.specs.Program as spec;
ghost use Rattle.rosterbook.specs.Program.{exit_status};
ghost use Rattle.rosterbook.specs.StopText.{stop_text};
ghost use Rattle.rosterbook.specs.Streams.{refused_line};

use crate::do_command::answer_do;
use crate::duty_command::answer_duty;
use crate::ended::{Ended, done_of};
use crate::import_command::answer_import;
use crate::init_command::answer_init;
use crate::lines::refuse;
use crate::serve_command::answer_serve;
use crate::show_command::answer_report;
use crate::status::Status;
use crate::stop::Stop;
use book::FilesLeft;
use console::Action;
use sqlite::{FileFrom, Start, Wary};
use sqlite_disk::Disk;
use std::io::{Read, Write};

/// Does what a command line asks for: reads from `reader`, writes to `out` and `err` what the program writes to standard
/// output and standard error, and answers how the program ends. That is `Failed`, after the line of a refusal on `err`, where
/// no book is made (43) or taken up (40, 41, 42), the store fails (90), memory is refused (91), a reader or a writer fails
/// (92), or a port can't be bound (93).
pub fn perform<R: Read, O: Write, E: Write>(
    rt: &HostRuntime,
    action: &Action,
    reader: &mut R,
    out: &mut O,
    err: &mut E,
) -> u8
    ensures { result ≢ exit_status Status.Failed
        → spec.IsPerformed action.now result (R.remaining reader.old) (O.contents out.old)
        (O.contents out.new) (E.contents err.old) (E.contents err.new) }
{
    perform_from(rt, action, Wary, reader, out, err).status
}

/// How the program ended, and what it left of the files of a book, if it opened them.
#[derive(Drop)]
pub struct Performed<D: Disk> {
    /// The exit status.
    pub status: u8,
    /// Whether the line of what stopped the program could be written, if anything did.
    pub told: bool,
    /// What is left of the files whose book was taken up.
    pub left: Option<FilesLeft<D>>,
    /// What is left of files that were opened, and from which no book was taken up.
    pub refused: Option<FilesLeft<D>>,
}

/// Does the same over files that held what `start` stands for, and hands back what is left of them.
/// Where it opens none, it reads nothing.
pub fn perform_from<S: Start, R: Read, O: Write, E: Write>(
    rt: &HostRuntime,
    action: &Action,
    start: S,
    reader: &mut R,
    out: &mut O,
    err: &mut E,
) -> Performed<FileFrom<S>>
    ensures by_files { result.status ≢ exit_status Status.Failed
        → by_files.IsPerformedByFiles (image_at S.Start) result.left action.now result.status
        (R.remaining reader.old) (O.contents out.old) (O.contents out.new)
        (E.contents err.old) (E.contents err.new) }
    ensures unread { result.left ≡ None → reader.new ≡ reader.old }

    // Whatever the status.
    ensures left { by_files.LeavesFiles (image_at S.Start) result.left action.now
        (R.remaining reader.old) }
    ensures session { by_files.IsSessionOf (image_at S.Start) result.left action.now }
    ensures refused { IfSome result.refused (by_files.IsRefusedByFiles (image_at S.Start)
        result.left result.status result.told (O.contents out.old) (O.contents out.new)
        (E.contents err.old) (E.contents err.new)) }
{
    finish(answer_action(rt, action, start, reader, out, err), err)
}

/// Answers an action, by a book over files that held what `start` stands for, if it is about one.
fn answer_action<S: Start, R: Read, O: Write, E: Write>(
    rt: &HostRuntime,
    action: &Action,
    start: S,
    reader: &mut R,
    out: &mut O,
    err: &mut E,
) -> Ended<FileFrom<S>>
    ensures done { IfOk result.done (λ status. status ≢ Status.Failed
        → by_files.PerformsByFiles (image_at S.Start) result.left action.now status
        (R.remaining reader.old) (O.contents out.old) (O.contents out.new)
        (E.contents err.old) (E.contents err.new)) }
    ensures unread { result.left ≡ None → reader.new ≡ reader.old }
    ensures left { by_files.LeavesFiles (image_at S.Start) result.left action.now
        (R.remaining reader.old) }
    ensures session { by_files.IsSessionOf (image_at S.Start) result.left action.now }
    ensures refused { by_files.IsRefusedAs result.left (image_at S.Start) result.refused
        result.done }
    ensures silent { IfSome result.refused
        (λ _. (out.new ≡ out.old) × (err.new ≡ err.old)) }
{
    match action {
        Action::Duty {
            zone,
            report,
            times,
        } => {
            let done = done_of(answer_duty(rt.alloc(), zone, report, times, out, err));
            Ended::without_files(done)
        }
        Action::Init { file, zone } => answer_init(rt, file, start, zone, out, err),
        Action::Do {
            file,
            dry_run,
            lines,
        } => answer_do(rt, file, start, *dry_run, *lines, reader, out),
        Action::Import { file, number } => {
            answer_import(rt, file, start, *number, reader, out, err)
        }
        Action::Report {
            file,
            subject,
            form,
        } => answer_report(rt, file, start, &subject.as_deref(), *form, out, err),
        Action::Serve {
            file,
            port,
            connections,
        } => answer_serve(rt, file, start, *port, *connections, out, err),
    }
}

/// Ends the program with the status of what was done, and writes the line of what stopped it.
fn finish<D: Disk, E: Write>(ended: Ended<D>, err: &mut E) -> Performed<D>
    ensures done { IfOk ended.done
        (λ status. (result.status ≡ exit_status status) × (err.new ≡ err.old)) }
    ensures failed { IsErr ended.done → result.status ≡ exit_status Status.Failed }
    ensures told { IfErr ended.done (λ stop. result.told ≡ true
        → Appends (E.contents err.old) (E.contents err.new) (refused_line (stop_text stop))) }
    ensures left { result.left ≡ ended.left }
    ensures refused { result.refused ≡ ended.refused }
{
    let Ended {
        done,
        left,
        refused,
    } = ended;
    let End { status, told } = end_of(done, err);
    Performed {
        status: status as u8,
        told,
        left,
        refused,
    }
}

/// How the program ends, and whether the line of what stopped it could be written, if anything did.
#[derive(Clone, Copy)]
pub(crate) struct End {
    pub(crate) status: Status,
    pub(crate) told: bool,
}

/// Returns the status of what was done. After what stopped it that is `Failed`, and it is reported to `err`; where that fails
/// too, the status alone says it.
pub(crate) fn end_of<E: Write>(done: Result<Status, Stop>, err: &mut E) -> End
    ensures failed { IsErr done → result.status ≡ Status.Failed }
    ensures done { IfOk done (λ status. (status ≡ result.status) × (err.new ≡ err.old)) }
    ensures told { IfErr done (λ stop. result.told ≡ true
        → Appends (E.contents err.old) (E.contents err.new) (refused_line (stop_text stop))) }
{
    match done {
        Ok(status) => End { status, told: true },
        Err(stop) => End {
            status: Status::Failed,
            told: refuse(err, &stop).is_ok(),
        },
    }
}
