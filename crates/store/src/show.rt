//! What a book shows.
//! Through the program: `tests/reports.py`.

use duty::{CrewId, PairingId};
use request::Subject;

/// What a book shows, by the ids of a member and of a pairing.
pub type Show = Subject<CrewId, PairingId>;
