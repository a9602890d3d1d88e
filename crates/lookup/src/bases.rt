//! The bases of the book.
//! Through the program: `tests/answers.py`. Wrong bodies: `must-fail-more/`.

ghost use Rattle.std.specs.Prelude.{◌≡◌, IfErr, IfOk, [], false, length, map};
ghost use Rattle.sqlite.specs.Held.{state};
ghost use Rattle.sqlite_rules.specs.Lists.{Has};
ghost use Rattle.time117.specs.Local.{is_zone_text};
ghost use Rattle.duty.specs.Shape.{home};
ghost use Rattle.tables.specs.Records.{base_row};
ghost use Rattle.tables.specs.Rows.{begins_with};
ghost use Rattle.state_rows.specs.Outcomes.{IsOutside, IsOverBook};
ghost use Rattle.state_rows.specs.Rows.{base, row_of_base};
ghost use Rattle.lookup.specs.Reads.{ReadsByKey, ReadsRows};
ghost use Rattle.lookup.specs.Bases.{AreOfBases, AreFirstBases};

use duty::BaseId;
use roster::Bases;
use sqlite::{Alter, Connection};
use state_rows::StoreFault;
use std::alloc::Global;
use tables::base::{BaseRecord, bases};
use time117::{Zone, ZoneFault};
use values::TryClone;

/// A base that a record gives.
#[derive(Drop)]
struct FoundBase {
    id: BaseId,
    zone: Zone,
}

/// Reads the records of the table.
#[tactic(auto, using(crate::proofs::ReadLemmas::was_read, crate::proofs::ReadLemmas::not_read, crate::proofs::ReadLemmas::holds_open))]
fn base_rows<S: Alter>(
    alloc: Global,
    conn: &mut Connection<S>,
) -> Result<Vec<BaseRecord>, StoreFault>
    requires outside { IsOutside (state S.Store conn.old) }
    requires over { IsOverBook (state S.Store conn.old) }
    ensures { ReadsRows base (begins_with []) (λ found. map base_row found.items)
        (state S.Store conn.old) (state S.Store conn.new) result }
{
    // The clause of this call says that outside a transaction what is shown is committed.
    let _settled = conn.is_autocommit();
    match bases(alloc, conn) {
        Ok(records) => Ok(records),
        Err(fault) => Err(StoreFault::from(fault)),
    }
}

/// Returns the base that a record gives.
#[tactic(auto, using(crate::proofs::BaseLemmas::row_is))]
fn base_of_row(alloc: Global, row: &BaseRecord) -> Result<FoundBase, StoreFault>
    ensures told { IfOk result (λ it. base_row row.now ≡ row_of_base it.id it.zone) }
    ensures unread { IfErr result
        (λ fault. fault ≡ StoreFault.Store → is_zone_text row.now.zone ≡ false) }
{
    let zone = match Zone::read(alloc, row.zone.as_str()) {
        Ok(zone) => zone,
        Err(ZoneFault::Memory) => return Err(StoreFault::Memory),
        Err(ZoneFault::ZoneText) => return Err(StoreFault::Store),
    };
    let id = BaseId::new(row.id.try_clone(alloc)?);
    Ok(FoundBase { id, zone })
}

/// Returns the zone of `HOME`.
fn home_of_rows(alloc: Global, records: &[BaseRecord]) -> Result<Zone, StoreFault>
    ensures told { IfOk result
        (λ zone. Has (map base_row records.now) (row_of_base home zone)) }
    ensures unread { IfErr result
        (λ fault. fault ≡ StoreFault.Store → AreOfBases records.now → ⊥) }
{
    for row in records {
        let FoundBase { id, zone } = base_of_row(alloc, row)?;
        if id.is_home() {
            return Ok(zone);
        }
    }
    Err(StoreFault::Store)
}

/// Returns the bases that the records give.
#[tactic(auto, using(crate::proofs::BaseLemmas::home_read))]
fn bases_of_rows(alloc: Global, records: &[BaseRecord]) -> Result<Bases, StoreFault>
    ensures told { IfOk result (AreFirstBases records.now (length records.now)) }
    ensures unread { IfErr result
        (λ fault. fault ≡ StoreFault.Store → AreOfBases records.now → ⊥) }
{
    let mut all = Bases::new(alloc, home_of_rows(alloc, records)?);
    for row in records {
        let FoundBase { id, zone } = base_of_row(alloc, row)?;
        all.insert(id, zone)?;
    }
    Ok(all)
}

/// Reads all bases.
#[tactic(auto, using(crate::proofs::Causes::not_told))]
pub fn bases_at<S: Alter>(alloc: Global, conn: &mut Connection<S>) -> Result<Bases, StoreFault>
    requires outside { IsOutside (state S.Store conn.old) }
    requires over { IsOverBook (state S.Store conn.old) }
    ensures { ReadsByKey (λ s bases. bases ≡ s.bases) (state S.Store conn.old)
        (state S.Store conn.new) result }
{
    let records = base_rows(alloc, conn)?;
    bases_of_rows(alloc, &records)
}
