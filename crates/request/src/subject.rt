//! What a report is asked of: the one name of a report, for whoever asks for it and whoever answers.
//! Worked texts of each report: `tests/reports.py`.

use crate::days::Days;
use crate::number::RequestNumber;

/// Which pairings are listed.
#[derive(Clone, Copy, Debug, PartialEq, Eq, Drop)]
pub enum Listed {
    All,
    /// Those with a free seat.
    Open,
}

/// What a report is asked of, with ids of these types of a crew member and of a pairing. An id that the book hasn't, or that is
/// outside its shape, names nothing.
#[derive(Clone, Copy, Debug, PartialEq, Eq, Drop)]
pub enum Subject<C, P> {
    /// The roster of this crew member.
    Crew(C),
    /// How near the duties of a crew member are to each limit, with the periods of a pairing as if the member held it, if
    /// one is named.
    Limits {
        /// The id of the crew member.
        crew: C,
        /// The id of the pairing.
        with: Option<P>,
    },
    /// This pairing.
    Pairing(P),
    /// All exceedances.
    Exceedances,
    /// All members.
    Members,
    /// All pairings, or those with a free seat.
    Pairings(Listed),
    /// The board of these days: all members, each with the duties that meet the days, and the open pairings that do.
    Board(Days),
    /// What is kept under the number of this request.
    Request(RequestNumber),
}

impl Subject<String, String> {
    ghost use Rattle.std.specs.Prelude.{◌≡◌};
    ghost use Rattle.request.specs.Subjects.{subject_bytes, subject_copied};

    /// Lends the ids.
    pub fn as_deref(&self) -> Subject<&str, &str>
        ensures { subject_copied result ≡ subject_bytes self.now }
    {
        match self {
            Subject::Crew(id) => Subject::Crew(id),
            Subject::Limits { crew, with } => Subject::Limits {
                crew,
                with: with.as_deref(),
            },
            Subject::Pairing(id) => Subject::Pairing(id),
            Subject::Exceedances => Subject::Exceedances,
            Subject::Members => Subject::Members,
            Subject::Pairings(which) => Subject::Pairings(*which),
            Subject::Board(days) => Subject::Board(*days),
            Subject::Request(number) => Subject::Request(*number),
        }
    }
}
