//! What the program is asked to do.

use request::{Form, RequestNumber, Subject};

/// What a command line asks for.
#[derive(Debug, PartialEq, Eq, Drop)]
pub enum Action {
    /// `duty ZONE REPORT TIME..`: judge one flight duty period.
    Duty {
        /// The POSIX time zone rule of the base of the crew.
        zone: String,
        /// The instant of report.
        report: String,
        /// Block-out and block-in of each segment in turn.
        times: Vec<String>,
    },
    /// `init FILE ZONE`: make a book in a file.
    Init {
        /// The path of the file, which is new or has no book.
        file: String,
        /// The POSIX time zone rule of the base `HOME`.
        zone: String,
    },
    /// `do FILE --dry-run --lines`: answer one command, or one a line, which is JSON on standard input.
    Do {
        /// The path of the book's file.
        file: String,
        /// Whether the answer is the one that the command would get now, and nothing is kept.
        dry_run: bool,
        /// Whether standard input has one command a line, each of which gets one reply a line.
        lines: bool,
    },
    /// `import FILE NUMBER`: add the pairings of a schedule, which is CSV on standard input.
    Import {
        /// The path of the book's file.
        file: String,
        /// The number of the request that the pairings are parts of.
        number: RequestNumber,
    },
    /// `roster FILE CREW`, `pairing FILE PAIRING`, `limits FILE CREW --with PAIRING`, `exceedances FILE`, `members FILE`,
    /// `pairings FILE --open`, `board FILE FROM TO` or `request FILE NUMBER`, each also with `--json`: print a report.
    Report {
        /// The path of the book's file.
        file: String,
        /// What the report is asked of.
        subject: Subject<String, String>,
        /// The form of the report: JSON, if `--json` is given.
        form: Form,
    },
    /// `serve FILE PORT --connections N`: answer requests of HTTP on 127.0.0.1.
    Serve {
        /// The path of the book's file.
        file: String,
        /// The port that is listened on, from 1 to 65,535.
        port: u16,
        /// How many connections are served: 1 to 1,000,000.
        connections: u32,
    },
}
