//! The table `ground`, as it is loaded. What is right is `IsGroundRight` (`specs/Right.antt` of `entries`).
//! Files with such a damage: `tests/tables.py`. Wrong bodies: `must-fail-more/`.

ghost use Rattle.std.specs.Prelude.{◌≡◌, length, map, IfOk, MatchResult};
ghost use Rattle.std.specs.FinMap as fin;
ghost use Rattle.sqlite.specs.Held.{state};
ghost use Rattle.sqlite.specs.State.{HasCleanDisk};
ghost use Rattle.tables.specs.Records.{ground_row, IsGroundRow};
ghost use Rattle.entries.specs.Right.{IsGround};
ghost use Rattle.loading.specs.Loading.{Justifies};
ghost use Rattle.loading.specs.Reading.{GroundsRead, ReadsAs, HasRows, IsUnreadable, BlamesOrFails, AgreesThrough};
ghost use Rattle.entries.specs.Faults.{Blames};
ghost use Rattle.entries.specs.Mapping.{TellsOf, HasStranger};
ghost use Rattle.state_rows.specs.Rows.{row_of_ground, ground_duty, seat};
ghost use Rattle.entries.specs.declared.fault.TableName.TheVariants as table_name;

use crate::given_back::given_back;
use duty::{CrewId, Ground, GroundId};
use entries::{LoadFault, TableName};
use roster::{Entry, Roster};
use sqlite::{Alter, Connection};
use std::alloc::Global;
use tables::book_schema::is_spared;
use tables::ground::{GroundRecord, is_ground_there, load_grounds};
use time117::Minute;
use values::{MemoryFault, Text, TryClone};

/// Reads the records of the table.
#[tactic(auto, using(crate::proofs::Telling::not_there, crate::proofs::Telling::no_memory))]
fn ground_records<S: Alter>(
    alloc: Global,
    conn: &mut Connection<S>,
) -> Result<Vec<GroundRecord>, LoadFault>
    ensures { ReadsAs
        (λ found. HasRows ground_duty (state S.Store conn.old).now (map ground_row found.items))
        (BlamesOrFails table_name.Ground
        (IsUnreadable ground_duty IsGroundRow (state S.Store conn.old).now))
        (state S.Store conn.old) (state S.Store conn.new) result }
{
    if !is_ground_there(alloc, conn)? || !is_spared(conn, "ground") {
        return Err(LoadFault::Damaged(TableName::Ground));
    }
    let loaded = load_grounds(alloc, conn);
    // The clause of this call says that an open connection shows a database.
    let _live = conn.schema();
    match loaded {
        Ok(records) => Ok(records),
        Err(fault) => Err(LoadFault::of_table(fault, TableName::Ground)),
    }
}

/// Reads the ground duty that a record gives, if it gives one of a member.
#[tactic(auto, using(crate::proofs::ReadGrounds::no_begin, crate::proofs::ReadGrounds::no_end, crate::proofs::ReadGrounds::no_member, crate::proofs::ReadGrounds::no_ground, crate::proofs::ReadGrounds::tells))]
fn ground_of(
    alloc: Global,
    roster: &Roster,
    row: &GroundRecord,
) -> Result<Option<Entry>, MemoryFault>
    ensures { IfOk result (TellsOf (λ id g entry. entry ≡ Entry.Ground g) row_of_ground
        (IsGround roster.now.crew) (ground_row row.now)) }
{
    let Some(begin) = Minute::from_number(row.begin_at) else {
        return Ok(None);
    };
    let Some(end) = Minute::from_number(row.end_at) else {
        return Ok(None);
    };
    let crew = CrewId::new(row.crew.try_clone(alloc)?);
    if !roster.crew.contains(&crew) {
        return Ok(None);
    }
    let id = GroundId::new(row.id.try_clone(alloc)?);
    let task = Text::new(String::from_str(alloc, row.task.as_str())?);
    match Ground::new(id, crew, begin, end, task) {
        Ok(ground) => Ok(Some(Entry::Ground(ground))),
        Err(_) => Ok(None),
    }
}

/// Sets the ground duties that the records give.
fn add_grounds(
    alloc: Global,
    roster: &mut Roster,
    records: &[GroundRecord],
) -> Result<(), LoadFault>
    requires { roster.old.grounds ≡ fin.empty }
    ensures { MatchResult result
        (λ _. GroundsRead records.now (length records.now) roster.old roster.new)
        (Blames table_name.Ground
        (HasStranger row_of_ground (IsGround roster.old.crew) (map ground_row records.now))) }
{
    for row in records {
        let Some(entry) = ground_of(alloc, roster, row)? else {
            return Err(LoadFault::Damaged(TableName::Ground));
        };
        roster.put(alloc, entry)?;
    }
    Ok(())
}

/// Reads the ground duties into a roster that has none.
pub(crate) fn read_grounds<S: Alter>(
    alloc: Global,
    conn: &mut Connection<S>,
    roster: Roster,
) -> Result<Roster, LoadFault>
    requires none { roster.grounds ≡ fin.empty }
    requires above { HasCleanDisk (state S.Store conn.old)
        → AgreesThrough seat roster (state S.Store conn.old).now }
    ensures read { ReadsAs (λ r. AgreesThrough ground_duty r (state S.Store conn.old).now
        × (r ≡ record roster { grounds = r.grounds }))
        (λ fault. Justifies fault (state S.Store conn.old).now) (state S.Store conn.old)
        (state S.Store conn.new) result }
    ensures rest { IfOk result (λ r. r ≡ record roster { grounds = r.grounds }) }
{
    let records = ground_records(alloc, conn)?;
    let mut roster = roster;
    let done = add_grounds(alloc, &mut roster, &records);
    given_back(roster, done)
}
