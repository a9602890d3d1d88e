//! The table `crew`, as it is loaded. What is right is `IsCrewRight` (`specs/Right.antt` of `entries`).
//! Files with such a damage: `tests/tables.py`. Wrong bodies: `must-fail-more/`.

ghost use Rattle.std.specs.Prelude.{◌≡◌, length, map, IfOk, MatchResult};
ghost use Rattle.std.specs.FinMap as fin;
ghost use Rattle.duty.specs.Shape.{home};
ghost use Rattle.sqlite.specs.Held.{state};
ghost use Rattle.sqlite.specs.State.{HasCleanDisk};
ghost use Rattle.tables.specs.Records.{crew_row, IsCrewRow};
ghost use Rattle.entries.specs.Right.{IsMember};
ghost use Rattle.loading.specs.Loading.{Justifies};
ghost use Rattle.loading.specs.Reading.{seat_of, AreAtHome, MembersRead, ReadsAs, HasRows, IsUnreadable, BlamesOrFails, AgreesThrough};
ghost use Rattle.entries.specs.Faults.{Blames};
ghost use Rattle.entries.specs.Mapping.{TellsOf, HasStranger};
ghost use Rattle.state_rows.specs.Rows.{row_of_member, crew, book};
ghost use Rattle.entries.specs.declared.fault.TableName.TheVariants as table_name;

use crate::given_back::given_back;
use command::{Member, Seat};
use duty::{BaseId, CrewId, is_plain_text};
use entries::{LoadFault, TableName};
use roster::{Entry, Roster};
use sqlite::{Alter, Connection};
use std::alloc::Global;
use tables::book_schema::is_spared;
use tables::crew::{CrewRecord, is_crew_there, load_crew};
use values::{MemoryFault, Text, TryClone};

/// Reads the records of the table.
#[tactic(auto, using(crate::proofs::Telling::not_there, crate::proofs::Telling::no_memory))]
fn crew_records<S: Alter>(
    alloc: Global,
    conn: &mut Connection<S>,
) -> Result<Vec<CrewRecord>, LoadFault>
    ensures { ReadsAs (λ found. HasRows crew (state S.Store conn.old).now
        (map crew_row found.items))
        (BlamesOrFails table_name.Crew (IsUnreadable crew IsCrewRow (state S.Store conn.old).now))
        (state S.Store conn.old) (state S.Store conn.new) result }
{
    if !is_crew_there(alloc, conn)? || !is_spared(conn, "crew") {
        return Err(LoadFault::Damaged(TableName::Crew));
    }
    let loaded = load_crew(alloc, conn);
    // The clause of this call says that an open connection shows a database.
    let _live = conn.schema();
    match loaded {
        Ok(records) => Ok(records),
        Err(fault) => Err(LoadFault::of_table(fault, TableName::Crew)),
    }
}

/// Returns the seat of a number in the tables.
pub(crate) fn seat_of_number(number: u32) -> Option<Seat>
    ensures { result ≡ seat_of number }
{
    match number {
        0 => Some(Seat::Captain),
        1 => Some(Seat::FirstOfficer),
        _ => None,
    }
}

/// Reads the member that a record gives, if it gives one, as a member at HOME: of the base the table `crew_base` gives.
#[tactic(auto, using(crate::proofs::ReadCrew::no_seat, crate::proofs::ReadCrew::bad_id, crate::proofs::ReadCrew::bad_name, crate::proofs::ReadCrew::tells))]
fn member_of(alloc: Global, row: &CrewRecord) -> Result<Option<Entry>, MemoryFault>
    ensures { IfOk result (TellsOf
        (λ id member entry. (entry ≡ Entry.Member id member) × (member.base ≡ home))
        row_of_member IsMember (crew_row row.now)) }
{
    let Some(seat) = seat_of_number(row.seat) else {
        return Ok(None);
    };
    let id = CrewId::new(row.id.try_clone(alloc)?);
    let name = Text::new(String::from_str(alloc, row.name.as_str())?);
    if !id.has_shape() || !is_plain_text(&name) {
        return Ok(None);
    }
    let base = BaseId::home(alloc)?;
    Ok(Some(Entry::Member(id, Member { seat, name, base })))
}

/// Sets the members that the records give.
#[tactic(auto, using(crate::proofs::ReadCrew::none_read, crate::proofs::ReadCrew::stranger, crate::proofs::ReadCrew::one_read))]
fn add_members(alloc: Global, roster: &mut Roster, records: &[CrewRecord]) -> Result<(), LoadFault>
    requires { roster.old.crew ≡ fin.empty }
    ensures { MatchResult result
        (λ _. MembersRead records.now (length records.now) roster.old roster.new)
        (Blames table_name.Crew (HasStranger row_of_member IsMember (map crew_row records.now))) }
{
    for row in records {
        let Some(entry) = member_of(alloc, row)? else {
            return Err(LoadFault::Damaged(TableName::Crew));
        };
        roster.put(alloc, entry)?;
    }
    Ok(())
}

/// Reads the members into a roster that has none, each at HOME.
#[tactic(auto, using(crate::proofs::ReadCrew::not_read, crate::proofs::ReadCrew::is_read))]
pub(crate) fn read_crew<S: Alter>(
    alloc: Global,
    conn: &mut Connection<S>,
    roster: Roster,
) -> Result<Roster, LoadFault>
    requires none { roster.crew ≡ fin.empty }
    requires above { HasCleanDisk (state S.Store conn.old)
        → AgreesThrough book roster (state S.Store conn.old).now }
    ensures read { ReadsAs (λ r. AgreesThrough crew r (state S.Store conn.old).now
        × (r ≡ record roster { crew = r.crew }))
        (λ fault. Justifies fault (state S.Store conn.old).now)
        (state S.Store conn.old) (state S.Store conn.new) result }
    ensures rest { IfOk result (λ r. r ≡ record roster { crew = r.crew }) }
    ensures home { IfOk result (λ r. AreAtHome r.crew) }
{
    let records = crew_records(alloc, conn)?;
    let mut roster = roster;
    let done = add_members(alloc, &mut roster, &records);
    given_back(roster, done)
}
