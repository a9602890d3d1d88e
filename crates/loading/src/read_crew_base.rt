//! The table `crew_base`, as it is loaded from a file of version 2. What is right is `IsCrewBaseRight`
//! (`specs/Right.antt` of `entries`).
//! Files with such a damage: `tests/tables.py`. Wrong bodies: `must-fail-more/`.

ghost use Rattle.std.specs.Prelude.{◌≡◌, ◌↔◌, length, map, IfOk, IsTrue, MatchResult};
ghost use Rattle.sqlite.specs.Held.{state};
ghost use Rattle.sqlite.specs.State.{HasCleanDisk};
ghost use Rattle.tables.specs.Records.{crew_base_row, IsCrewBaseRow};
ghost use Rattle.loading.specs.Loading.{Justifies};
ghost use Rattle.loading.specs.Reading.{AgreesIn, AreAllPosted, ArePosted, AreUnposted, BlamesOrFails, HasRows, IsPosted, IsUnreadable, PostsRead, ReadsAs, row_of_posted};
ghost use Rattle.entries.specs.Faults.{Blames};
ghost use Rattle.entries.specs.Mapping.{HasStranger, TellsOf};
ghost use Rattle.state_rows.specs.Requests.{Requests, with_requests};
ghost use Rattle.state_rows.specs.Rows.{base, crew_base};
ghost use Rattle.state_rows.specs.declared.edition.Edition.TheVariants.{Second};
ghost use Rattle.entries.specs.declared.fault.TableName.TheVariants as table_name;

use crate::given_back::given_back;
use command::Member;
use duty::{BaseId, CrewId};
use entries::{LoadFault, TableName};
use roster::Roster;
use sqlite::{Alter, Connection};
use std::alloc::Global;
use tables::book_schema::is_spared;
use tables::crew_base::{CrewBaseRecord, is_crew_base_there, load_crew_bases};
use values::{MemoryFault, OrdMap, TryClone};

/// Reads the records of the table.
#[tactic(auto, using(crate::proofs::Telling::not_there, crate::proofs::Telling::no_memory))]
fn crew_base_records<S: Alter>(
    alloc: Global,
    conn: &mut Connection<S>,
) -> Result<Vec<CrewBaseRecord>, LoadFault>
    ensures { ReadsAs (λ found. HasRows crew_base (state S.Store conn.old).now
        (map crew_base_row found.items))
        (BlamesOrFails table_name.CrewBase (IsUnreadable crew_base IsCrewBaseRow
        (state S.Store conn.old).now))
        (state S.Store conn.old) (state S.Store conn.new) result }
{
    if !is_crew_base_there(alloc, conn)? || !is_spared(conn, "crew_base") {
        return Err(LoadFault::Damaged(TableName::CrewBase));
    }
    let loaded = load_crew_bases(alloc, conn);
    // The clause of this call says that an open connection shows a database.
    let _live = conn.schema();
    match loaded {
        Ok(records) => Ok(records),
        Err(fault) => Err(LoadFault::of_table(fault, TableName::CrewBase)),
    }
}

/// Reads the member that a record gives, at the base that it names, if the roster has both.
#[tactic(auto, using(crate::proofs::ReadCrewBase::no_base, crate::proofs::ReadCrewBase::no_member, crate::proofs::ReadCrewBase::tells))]
fn posted_of(
    alloc: Global,
    roster: &Roster,
    row: &CrewBaseRecord,
) -> Result<Option<(CrewId, Member)>, MemoryFault>
    ensures { IfOk result (TellsOf (λ who m it. (it.0 ≡ who) × (it.1 ≡ m)) row_of_posted
        (IsPosted roster.now.bases roster.now.crew) (crew_base_row row.now)) }
{
    let base = BaseId::new(row.base.try_clone(alloc)?);
    if !roster.bases.contains(&base) {
        return Ok(None);
    }
    let who = CrewId::new(row.crew.try_clone(alloc)?);
    let Some(before) = roster.crew.get(&who) else {
        return Ok(None);
    };
    let name = before.name.try_clone(alloc)?;
    let seat = before.seat;
    Ok(Some((who, Member { seat, name, base })))
}

/// Collects the members that the records give, each at the base that the record names.
fn posted_members(
    alloc: Global,
    roster: &Roster,
    records: &[CrewBaseRecord],
) -> Result<OrdMap<CrewId, Member>, LoadFault>
    ensures { MatchResult result
        (PostsRead roster.now.bases roster.now.crew records.now (length records.now))
        (Blames table_name.CrewBase (HasStranger row_of_posted
        (IsPosted roster.now.bases roster.now.crew) (map crew_base_row records.now))) }
{
    let mut posted = OrdMap::new(alloc);
    for row in records {
        let Some((who, member)) = posted_of(alloc, roster, row)? else {
            return Err(LoadFault::Damaged(TableName::CrewBase));
        };
        posted.insert(who, member)?;
    }
    Ok(posted)
}

/// Returns whether each member is among these.
fn are_all_posted(crew: &OrdMap<CrewId, Member>, posted: &OrdMap<CrewId, Member>) -> bool
    ensures { IsTrue result ↔ AreAllPosted crew.now posted.now }
{
    for (who, _) in crew.iter() {
        if !posted.contains(who) {
            return false;
        }
    }
    true
}

/// Sets each member at the base that a record names.
#[tactic(auto, using(crate::proofs::ReadCrewBase::post_stranger, crate::proofs::ReadCrewBase::not_all_posted, crate::proofs::ReadCrewBase::all_posted))]
fn post_all(alloc: Global, roster: &mut Roster, records: &[CrewBaseRecord]) -> Result<(), LoadFault>
    ensures { MatchResult result (λ _. ArePosted records.now roster.old roster.new)
        (Blames table_name.CrewBase (AreUnposted records.now roster.old)) }
{
    let posted = posted_members(alloc, roster, records)?;
    if !are_all_posted(&roster.crew, &posted) {
        return Err(LoadFault::Damaged(TableName::CrewBase));
    }
    roster.crew = posted;
    Ok(())
}

/// Reads the bases of the members into a roster that has the bases.
pub(crate) fn read_crew_base<S: Alter>(
    alloc: Global,
    conn: &mut Connection<S>,
    roster: Roster,
) -> Result<Roster, LoadFault>
    requires { (kept : Requests) × (HasCleanDisk (state S.Store conn.old)
        → AgreesIn Second base (with_requests kept roster) (state S.Store conn.old).now) }
    ensures { (kept : Requests) × ReadsAs
        (λ r. AgreesIn Second crew_base (with_requests kept r) (state S.Store conn.old).now)
        (λ fault. Justifies fault (state S.Store conn.old).now) (state S.Store conn.old)
        (state S.Store conn.new) result }
{
    let records = crew_base_records(alloc, conn)?;
    let mut roster = roster;
    let done = post_all(alloc, &mut roster, &records);
    given_back(roster, done)
}
