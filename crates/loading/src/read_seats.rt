//! The table `seat`, as it is loaded. What is right is `IsSeatRight` (`specs/Right.antt` of `entries`).
//! Files with such a damage: `tests/tables.py`. Wrong bodies: `must-fail/` and `must-fail-more/`.

ghost use Rattle.std.specs.Prelude.{◌≡◌, ◌||◌, not, length, map, true, IfOk, IsTrue, ◌↔◌, MatchResult, Some};
ghost use Rattle.std.specs.FinMap as fin;
ghost use Rattle.sqlite.specs.Held.{state};
ghost use Rattle.sqlite.specs.State.{HasCleanDisk};
ghost use Rattle.command.specs.declared.member.Member.{Member as MemberOf};
ghost use Rattle.roster.specs.Pairings.{is_flown, is_fully_crewed};
ghost use Rattle.tables.specs.Records.{seat_row, IsSeatRow};
ghost use Rattle.loading.specs.Loading.{Justifies};
ghost use Rattle.loading.specs.Reading.{AreCrewed, HaveNoHolders, AreUnseated, IsSeatHeldBy, SeatsRead, row_of_held, ReadsAs, HasRows, IsUnreadable, BlamesOrFails, AgreesThrough};
ghost use Rattle.entries.specs.Faults.{Blames};
ghost use Rattle.entries.specs.Mapping.{TellsOf, HasStranger};
ghost use Rattle.state_rows.specs.Rows.{seat, segment};
ghost use Rattle.entries.specs.declared.fault.TableName.TheVariants as table_name;

use crate::given_back::given_back;
use crate::read_crew::seat_of_number;
use command::Seat;
use duty::{CrewId, PairingId};
use entries::{LoadFault, TableName};
use roster::{PairingEntry, Roster};
use sqlite::{Alter, Connection};
use std::alloc::Global;
use tables::book_schema::is_spared;
use tables::seat::{SeatRecord, is_seat_there, load_seats};
use values::{Edit, MemoryFault, TryClone};

/// A member takes a seat.
#[derive(Drop)]
struct Taken {
    seat: Seat,
    crew: CrewId,
}

impl Edit<PairingEntry> for Taken {
    ghost use Rattle.std.specs.Prelude.{Some};
    ghost use Rattle.roster.specs.Pairings.{with_holder};

    ghost edited = { λ taken entry. with_holder taken.seat (Some taken.crew) entry };

    fn edit(self, entry: &mut PairingEntry) {
        match self.seat {
            Seat::Captain => entry.captain = Some(self.crew),
            Seat::FirstOfficer => entry.first_officer = Some(self.crew),
        }
    }
}

/// A seat of a pairing, and who takes it.
#[derive(Drop)]
struct TakenSeat {
    pairing: PairingId,
    taken: Taken,
}

/// Reads the records of the table.
#[tactic(auto, using(crate::proofs::Telling::not_there, crate::proofs::Telling::no_memory))]
fn seat_records<S: Alter>(
    alloc: Global,
    conn: &mut Connection<S>,
) -> Result<Vec<SeatRecord>, LoadFault>
    ensures { ReadsAs (λ found. HasRows seat (state S.Store conn.old).now
        (map seat_row found.items))
        (BlamesOrFails table_name.Seat (IsUnreadable seat IsSeatRow (state S.Store conn.old).now))
        (state S.Store conn.old) (state S.Store conn.new) result }
{
    if !is_seat_there(alloc, conn)? || !is_spared(conn, "seat") {
        return Err(LoadFault::Damaged(TableName::Seat));
    }
    let loaded = load_seats(alloc, conn);
    // The clause of this call says that an open connection shows a database.
    let _live = conn.schema();
    match loaded {
        Ok(records) => Ok(records),
        Err(fault) => Err(LoadFault::of_table(fault, TableName::Seat)),
    }
}

/// Returns whether a member of this id takes such a seat.
fn takes(roster: &Roster, crew: &CrewId, seat: Seat) -> bool
    ensures { IsTrue result
        ↔ ((m : MemberOf) × (fin.get roster.now.crew crew.now ≡ Some m) × (m.seat ≡ seat)) }
{
    match roster.crew.get(crew) {
        Some(member) => member.seat == seat,
        None => false,
    }
}

/// Reads the seat that a record gives, if it gives one of a pairing, held by a member who takes such seats.
#[tactic(auto, using(crate::proofs::ReadSeats::no_seat, crate::proofs::ReadSeats::no_pairing, crate::proofs::ReadSeats::no_holder))]
fn held_seat_of(
    alloc: Global,
    roster: &Roster,
    row: &SeatRecord,
) -> Result<Option<TakenSeat>, MemoryFault>
    ensures { IfOk result (TellsOf
        (λ at who it. (it.pairing ≡ at.pairing) × (it.taken.seat ≡ at.seat) × (it.taken.crew ≡ who))
        row_of_held (IsSeatHeldBy roster.now.crew roster.now.pairings) (seat_row row.now)) }
{
    let Some(seat) = seat_of_number(row.seat) else {
        return Ok(None);
    };
    let pairing = PairingId::new(row.pairing.try_clone(alloc)?);
    if !roster.pairings.contains(&pairing) {
        return Ok(None);
    }
    let crew = CrewId::new(row.crew.try_clone(alloc)?);
    if !takes(roster, &crew, seat) {
        return Ok(None);
    }
    Ok(Some(TakenSeat {
        pairing,
        taken: Taken { seat, crew },
    }))
}

/// Puts the members into the seats that the records give.
fn take_seats(alloc: Global, roster: &mut Roster, records: &[SeatRecord]) -> Result<(), LoadFault>
    requires { HaveNoHolders roster.old }
    ensures { MatchResult result
        (λ _. SeatsRead records.now (length records.now) roster.old roster.new)
        (Blames table_name.Seat
        (HasStranger row_of_held (IsSeatHeldBy roster.old.crew roster.old.pairings)
        (map seat_row records.now))) }
{
    for row in records {
        let Some(TakenSeat { pairing, taken }) = held_seat_of(alloc, roster, row)? else {
            return Err(LoadFault::Damaged(TableName::Seat));
        };
        roster.pairings.edit(&pairing, taken);
    }
    Ok(())
}

/// Returns whether both seats of a pairing are held, if it is flown.
fn is_seated(entry: &PairingEntry) -> bool
    ensures { result ≡ not (is_flown entry.now) || is_fully_crewed entry.now }
{
    !entry.is_flown() || entry.captain.is_some() && entry.first_officer.is_some()
}

/// Returns whether both seats of each flown pairing are held.
#[tactic(auto, using(crate::proofs::ReadSeats::all_crewed))]
fn are_crewed(roster: &Roster) -> bool
    ensures { IsTrue result ↔ AreCrewed roster.now }
{
    for (_, entry) in roster.pairings.iter() {
        if !is_seated(entry) {
            return false;
        }
    }
    true
}

/// Puts the members into the seats that the records give, where that leaves no flown pairing with a free seat.
#[tactic(auto, using(crate::proofs::ReadSeats::read_stranger, crate::proofs::ReadSeats::not_all_crewed))]
fn seat_all(alloc: Global, roster: &mut Roster, records: &[SeatRecord]) -> Result<(), LoadFault>
    requires { HaveNoHolders roster.old }
    ensures { MatchResult result
        (λ _. SeatsRead records.now (length records.now) roster.old roster.new
        × AreCrewed roster.new) (Blames table_name.Seat (AreUnseated records.now roster.old)) }
{
    take_seats(alloc, roster, records)?;
    if !are_crewed(roster) {
        return Err(LoadFault::Damaged(TableName::Seat));
    }
    Ok(())
}

/// Reads who holds the seats into a roster of which all are free.
pub(crate) fn read_seats<S: Alter>(
    alloc: Global,
    conn: &mut Connection<S>,
    roster: Roster,
) -> Result<Roster, LoadFault>
    requires free { HaveNoHolders roster }
    requires above { HasCleanDisk (state S.Store conn.old)
        → AgreesThrough segment roster (state S.Store conn.old).now }
    ensures read { ReadsAs (λ r. AgreesThrough seat r (state S.Store conn.old).now
        × (r ≡ record roster { pairings = r.pairings }))
        (λ fault. Justifies fault (state S.Store conn.old).now) (state S.Store conn.old)
        (state S.Store conn.new) result }
    ensures rest { IfOk result (λ r. r ≡ record roster { pairings = r.pairings }) }
{
    let records = seat_records(alloc, conn)?;
    let mut roster = roster;
    let done = seat_all(alloc, &mut roster, &records);
    given_back(roster, done)
}
