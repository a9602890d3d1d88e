//! The rows of a roster's tables, each as an entry.

use command::{Key, Member};
use duty::{CrewId, Ground, GroundId, OutsideId, PairingId};
use roster::{DutyId, Entry, ExceedanceId, LoggedCommand, OutsideEntry, PairingEntry};
use values::{OrdKey, TryClone};

/// What a table of a roster is keyed by.
pub trait Row: OrdKey + TryClone {
    /// What stands under it.
    type Value: TryClone;

    /// The row as an entry.
    fn entry(self, value: Self::Value) -> Entry;
}

impl Row for CrewId {
    type Value = Member;

    fn entry(self, value: Member) -> Entry {
        Entry::Member(self, value)
    }
}

impl Row for PairingId {
    type Value = PairingEntry;

    fn entry(self, value: PairingEntry) -> Entry {
        Entry::Pairing(value)
    }
}

impl Row for GroundId {
    type Value = Ground;

    fn entry(self, value: Ground) -> Entry {
        Entry::Ground(value)
    }
}

impl Row for OutsideId {
    type Value = OutsideEntry;

    fn entry(self, value: OutsideEntry) -> Entry {
        Entry::Outside(value)
    }
}

impl Row for ExceedanceId {
    type Value = DutyId;

    fn entry(self, value: DutyId) -> Entry {
        Entry::Exceedance(self, value)
    }
}

impl Row for Key {
    type Value = LoggedCommand;

    fn entry(self, value: LoggedCommand) -> Entry {
        Entry::LoggedCommand(self, value)
    }
}
