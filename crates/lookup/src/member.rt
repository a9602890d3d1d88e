//! A member, read by id.
//! Through the program: `tests/answers.py`. Wrong bodies: `must-fail-more/`.

ghost use Rattle.std.specs.Prelude.{◌≡◌, IfErr, IfOk};
ghost use Rattle.std.specs.FinMap as fin;
ghost use Rattle.sqlite.specs.Held.{state};
ghost use Rattle.state_rows.specs.Outcomes.{IsOutside, IsOverBook};
ghost use Rattle.lookup.specs.Reads.{ReadsByKey, HaveNone};
ghost use Rattle.lookup.specs.Members.{HasFirst, ReadsMember};

use command::{Member, Seat};
use duty::{BaseId, CrewId};
use sqlite::{Alter, Connection};
use state_rows::StoreFault;
use std::alloc::Global;
use tables::crew::{CrewRecord, crew_by_id};
use tables::crew_base::{CrewBaseRecord, crew_base_by_crew};
use values::TryClone;

/// The records of one member; of one who isn't there, none.
#[derive(Drop)]
pub(crate) struct MemberRecords {
    pub(crate) crew: Vec<CrewRecord>,
    pub(crate) bases: Vec<CrewBaseRecord>,
}

/// Reads the records of a member and of the member's base. Without a record of `crew` there is no member, and nothing more
/// is read.
#[tactic(auto, using(crate::proofs::ReadLemmas::holds_open))]
fn member_rows<S: Alter>(
    alloc: Global,
    conn: &mut Connection<S>,
    id: &str,
) -> Result<MemberRecords, StoreFault>
    requires outside { IsOutside (state S.Store conn.old) }
    requires over { IsOverBook (state S.Store conn.old) }
    ensures { ReadsMember id.now (state S.Store conn.old) (state S.Store conn.new) result }
{
    // The clause of this call says that outside a transaction what is shown is committed.
    let _settled = conn.is_autocommit();
    let crew = crew_by_id(alloc, conn, id)?;
    if crew.is_empty() {
        return Ok(MemberRecords {
            crew,
            bases: Vec::new(alloc),
        });
    }
    let bases = crew_base_by_crew(alloc, conn, id)?;
    Ok(MemberRecords { crew, bases })
}

/// Returns the member that the first of some records gives, at the base of the first of some others.
#[tactic(auto, using(crate::proofs::MemberLemmas::none_told, crate::proofs::MemberLemmas::columns_told, crate::proofs::MemberLemmas::no_seat, crate::proofs::MemberLemmas::no_base))]
fn first_member(
    alloc: Global,
    records: &[CrewRecord],
    bases: &[CrewBaseRecord],
) -> Result<Option<Member>, StoreFault>
    ensures told { IfOk result (HasFirst records.now bases.now) }
    ensures unread { IfErr result
        (λ fault. fault ≡ StoreFault.Store → HaveNone (HasFirst records.now bases.now)) }
{
    let Some(row) = records.first() else {
        return Ok(None);
    };
    let Some(its) = bases.first() else {
        return Err(StoreFault::Store);
    };
    let seat = match row.seat {
        0 => Seat::Captain,
        1 => Seat::FirstOfficer,
        _ => return Err(StoreFault::Store),
    };
    Ok(Some(Member {
        seat,
        name: row.name.try_clone(alloc)?,
        base: BaseId::new(its.base.try_clone(alloc)?),
    }))
}

/// Reads the member of an id.
#[tactic(auto, using(crate::proofs::Causes::not_told))]
pub fn member_at<S: Alter>(
    alloc: Global,
    conn: &mut Connection<S>,
    id: &CrewId,
) -> Result<Option<Member>, StoreFault>
    requires outside { IsOutside (state S.Store conn.old) }
    requires over { IsOverBook (state S.Store conn.old) }
    ensures { ReadsByKey (λ s found. found ≡ fin.get s.crew id.now) (state S.Store conn.old)
        (state S.Store conn.new) result }
{
    let rows = member_rows(alloc, conn, id.as_str())?;
    first_member(alloc, &rows.crew, &rows.bases)
}
