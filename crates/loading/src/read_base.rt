//! The table `base`, as it is loaded from a file of version 2. What is right is `IsBaseRight` (`specs/Right.antt` of
//! `entries`).
//! Files with such a damage: `tests/tables.py`. Wrong bodies: `must-fail-more/`.

ghost use Rattle.std.specs.Prelude.{◌≡◌, ◌↔◌, length, map, IfOk, IsTrue, MatchResult};
ghost use Rattle.duty.specs.Shape.{home};
ghost use Rattle.sqlite.specs.Held.{state};
ghost use Rattle.sqlite.specs.State.{HasCleanDisk};
ghost use Rattle.roster.specs.Bases.{home_zone, only_home};
ghost use Rattle.tables.specs.Records.{base_row, IsBaseRow};
ghost use Rattle.loading.specs.Loading.{Justifies};
ghost use Rattle.loading.specs.Reading.{AgreesIn, AreBasesRead, AreNoBases, BasesRead, BlamesOrFails, HasHome, HasRows, IsShaped, IsUnreadable, ReadsAs};
ghost use Rattle.entries.specs.Faults.{Blames};
ghost use Rattle.entries.specs.Mapping.{HasStranger, TellsOf};
ghost use Rattle.state_rows.specs.Requests.{Requests, with_requests};
ghost use Rattle.state_rows.specs.Rows.{row_of_base, base, request};
ghost use Rattle.state_rows.specs.declared.edition.Edition.TheVariants.{Second};
ghost use Rattle.entries.specs.declared.fault.TableName.TheVariants as table_name;

use crate::given_back::given_back;
use duty::BaseId;
use entries::{LoadFault, TableName};
use roster::{Entry, Roster};
use sqlite::{Alter, Connection};
use std::alloc::Global;
use tables::base::{BaseRecord, is_base_there, load_bases};
use tables::book_schema::is_spared;
use time117::{Zone, ZoneFault};
use values::{MemoryFault, TryClone};

/// Reads the records of the table.
#[tactic(auto, using(crate::proofs::Telling::not_there, crate::proofs::Telling::no_memory))]
fn base_records<S: Alter>(
    alloc: Global,
    conn: &mut Connection<S>,
) -> Result<Vec<BaseRecord>, LoadFault>
    ensures { ReadsAs (λ found. HasRows base (state S.Store conn.old).now
        (map base_row found.items))
        (BlamesOrFails table_name.Base (IsUnreadable base IsBaseRow (state S.Store conn.old).now))
        (state S.Store conn.old) (state S.Store conn.new) result }
{
    if !is_base_there(alloc, conn)? || !is_spared(conn, "base") {
        return Err(LoadFault::Damaged(TableName::Base));
    }
    let loaded = load_bases(alloc, conn);
    // The clause of this call says that an open connection shows a database.
    let _live = conn.schema();
    match loaded {
        Ok(records) => Ok(records),
        Err(fault) => Err(LoadFault::of_table(fault, TableName::Base)),
    }
}

/// Returns whether the record is that of the base HOME with this zone.
#[tactic(auto, using(crate::proofs::ReadBase::home_row, crate::proofs::ReadBase::home_told))]
fn is_home(row: &BaseRecord, zone: &str) -> bool
    ensures { IsTrue result ↔ (base_row row.now ≡ row_of_base home zone.now) }
{
    row.id.as_str() == "HOME" && row.zone.as_str() == zone
}

/// Returns whether one of the records is that of the base HOME with this zone.
fn has_home(records: &[BaseRecord], zone: &str) -> bool
    ensures { IsTrue result ↔ HasHome records.now zone.now }
{
    for row in records {
        if is_home(row, zone) {
            return true;
        }
    }
    false
}

/// Reads the base that a record gives, if it gives one.
#[tactic(auto, using(crate::proofs::ReadBase::bad_id, crate::proofs::ReadBase::bad_zone, crate::proofs::ReadBase::tells))]
fn base_of(alloc: Global, row: &BaseRecord) -> Result<Option<Entry>, MemoryFault>
    ensures { IfOk result (TellsOf (λ id zone entry. entry ≡ Entry.Base id zone) row_of_base
        IsShaped (base_row row.now)) }
{
    let id = BaseId::new(row.id.try_clone(alloc)?);
    if !id.has_shape() {
        return Ok(None);
    }
    match Zone::read(alloc, row.zone.as_str()) {
        Ok(zone) => Ok(Some(Entry::Base(id, zone))),
        Err(ZoneFault::Memory) => Err(MemoryFault),
        Err(ZoneFault::ZoneText) => Ok(None),
    }
}

/// Sets the bases that the records give.
fn add_bases(alloc: Global, roster: &mut Roster, records: &[BaseRecord]) -> Result<(), LoadFault>
    requires { roster.old.bases ≡ only_home (home_zone roster.old.bases) }
    ensures { MatchResult result
        (λ _. BasesRead records.now (length records.now) roster.old roster.new)
        (Blames table_name.Base (HasStranger row_of_base IsShaped (map base_row records.now))) }
{
    for row in records {
        let Some(entry) = base_of(alloc, row)? else {
            return Err(LoadFault::Damaged(TableName::Base));
        };
        roster.put(alloc, entry)?;
    }
    Ok(())
}

/// Sets the bases that the records give, where one of them is HOME with its zone.
#[tactic(auto, using(crate::proofs::Homes::zone_there, crate::proofs::ReadBase::base_stranger, crate::proofs::ReadBase::without_home, crate::proofs::ReadBase::bases_read))]
fn bases_of(alloc: Global, roster: Roster, records: &[BaseRecord]) -> Result<Roster, LoadFault>
    requires { roster.bases ≡ only_home (home_zone roster.bases) }
    ensures { MatchResult result (AreBasesRead records.now roster)
        (Blames table_name.Base (AreNoBases records.now roster)) }
{
    if !has_home(records, roster.bases.home().text()) {
        return Err(LoadFault::Damaged(TableName::Base));
    }
    let mut roster = roster;
    let done = add_bases(alloc, &mut roster, records);
    given_back(roster, done)
}

/// Reads the bases into a roster that has HOME alone, with the zone of the book.
pub(crate) fn read_base<S: Alter>(
    alloc: Global,
    conn: &mut Connection<S>,
    roster: Roster,
) -> Result<Roster, LoadFault>
    requires home { roster.bases ≡ only_home (home_zone roster.bases) }
    requires above { (kept : Requests) × (HasCleanDisk (state S.Store conn.old)
        → AgreesIn Second request (with_requests kept roster) (state S.Store conn.old).now) }
    ensures { (kept : Requests) × ReadsAs
        (λ r. AgreesIn Second base (with_requests kept r) (state S.Store conn.old).now)
        (λ fault. Justifies fault (state S.Store conn.old).now) (state S.Store conn.old)
        (state S.Store conn.new) result }
{
    let records = base_records(alloc, conn)?;
    bases_of(alloc, roster, &records)
}
