//! How a subcommand ended, and what it left of the files of a book.
//! Wrong bodies: `must-fail-more/`.
ghost use Rattle.std.specs.Prelude.{◌≡◌, Err, IfOk, None, Ok};
ghost use Rattle.rosterbook.specs.declared.stop.Stop.TheVariants.{Load};

use crate::status::Status;
use crate::stop::Stop;
use book::{FilesLeft, NotTaken};
use sqlite_disk::Disk;
use std::io;

/// How a subcommand ended, and what it left of the files of a book, if it opened them.
#[derive(Drop)]
pub(crate) struct Ended<D: Disk> {
    pub(crate) done: Result<Status, Stop>,
    /// What is left of the files whose book was taken up.
    pub(crate) left: Option<FilesLeft<D>>,
    /// What is left of files from which no book was taken up.
    pub(crate) refused: Option<FilesLeft<D>>,
}

impl<D: Disk> Ended<D> {
    /// Ends with no files opened.
    pub(crate) fn without_files(done: Result<Status, Stop>) -> Ended<D>
        ensures done { result.done ≡ done }
        ensures left { result.left ≡ None }
        ensures refused { result.refused ≡ None }
    {
        Ended {
            done,
            left: None,
            refused: None,
        }
    }

    /// Ends where no book was taken up.
    pub(crate) fn of_refusal(it: NotTaken<D>) -> Ended<D>
        ensures done { result.done ≡ Err (Load it.fault) }
        ensures left { result.left ≡ None }
        ensures refused { result.refused ≡ it.left }
    {
        let NotTaken { fault, left } = it;
        Ended {
            done: Err(Stop::from(fault)),
            left: None,
            refused: left,
        }
    }
}

/// Passes on what was answered, where an error is a writer's.
pub(crate) fn done_of(answered: io::Result<Status>) -> Result<Status, Stop>
    ensures { IfOk result (λ status. answered ≡ Ok status) }
{
    Ok(answered?)
}
