//! A pairing with its actuals and holders, read by id.
//! Through the program: `tests/answers.py`. Wrong bodies: `must-fail-more/`.

ghost use Rattle.std.specs.Prelude.{◌≡◌, IfErr, IfOk, IsSome, slice_get};
ghost use Rattle.std.specs.FinMap as fin;
ghost use Rattle.sqlite.specs.Held.{state};
ghost use Rattle.state_rows.specs.Outcomes.{IsOutside, IsOverBook};
ghost use Rattle.entries.specs.OnePairing.{GiveNoPairing};
ghost use Rattle.lookup.specs.Reads.{ReadsByKey};
ghost use Rattle.lookup.specs.Plans.{HoldsSeat, ReadsPlan, TellsPairing, unread_as};

use duty::{CrewId, PairingId};
use entries::{LoadFault, pairing_of_records};
use roster::PairingEntry;
use sqlite::{Alter, Connection};
use state_rows::StoreFault;
use std::alloc::Global;
use tables::period::{PeriodRecord, periods_of};
use tables::seat::{SeatRecord, seats_of};
use tables::segment::{SegmentRecord, segments_of};
use values::{MemoryFault, TryClone};

/// The records of one pairing; of one that isn't there, none.
#[derive(Drop)]
pub(crate) struct PlanRecords {
    pub(crate) periods: Vec<PeriodRecord>,
    pub(crate) segments: Vec<SegmentRecord>,
    pub(crate) seats: Vec<SeatRecord>,
}

/// Reads the records of a pairing's periods, of their segments and of the seats that are held. Without a period there is no
/// pairing, and nothing more is read.
#[tactic(auto, using(crate::proofs::ReadLemmas::holds_open))]
fn plan_rows<S: Alter>(
    alloc: Global,
    conn: &mut Connection<S>,
    id: &str,
) -> Result<PlanRecords, StoreFault>
    requires outside { IsOutside (state S.Store conn.old) }
    requires over { IsOverBook (state S.Store conn.old) }
    ensures { ReadsPlan id.now (state S.Store conn.old) (state S.Store conn.new) result }
{
    // The clause of this call says that outside a transaction what is shown is committed.
    let _settled = conn.is_autocommit();
    let periods = periods_of(alloc, conn, id)?;
    if periods.is_empty() {
        return Ok(PlanRecords {
            periods,
            segments: Vec::new(alloc),
            seats: Vec::new(alloc),
        });
    }
    let segments = segments_of(alloc, conn, id)?;
    let seats = seats_of(alloc, conn, id)?;
    Ok(PlanRecords {
        periods,
        segments,
        seats,
    })
}

/// Returns who holds the seat of a number.
fn holder_in(
    alloc: Global,
    number: u32,
    seats: &[SeatRecord],
) -> Result<Option<CrewId>, MemoryFault>
    ensures { IfOk result (HoldsSeat number seats.now) }
{
    for row in seats {
        if row.seat == number {
            return Ok(Some(CrewId::new(row.crew.try_clone(alloc)?)));
        }
    }
    Ok(None)
}

/// Returns the fault of a read whose records make no pairing, or no outside period: 90, or 91 for out of memory. Making
/// one reads no table, so a fault of the store means out of memory here.
pub(crate) fn as_store_fault(fault: LoadFault) -> StoreFault
    ensures { result ≡ unread_as fault }
{
    match fault {
        LoadFault::Fault(_) => StoreFault::Memory,
        LoadFault::NotABook | LoadFault::Version | LoadFault::Damaged(_) => StoreFault::Store,
    }
}

/// Returns the pairing that the records give.
fn pairing_of_rows(
    alloc: Global,
    id: &PairingId,
    rows: &PlanRecords,
) -> Result<Option<PairingEntry>, StoreFault>
    ensures told { IfOk result
        (TellsPairing id.now rows.now.periods.items rows.now.segments.items rows.now.seats.items) }
    ensures unread { IfErr result (λ fault. fault ≡ StoreFault.Store
        → IsSome (slice_get rows.now.periods.items 0)
        × GiveNoPairing id.now rows.now.periods.items rows.now.segments.items) }
{
    let Some(_) = rows.periods.first() else {
        return Ok(None);
    };
    let mut pairing = match pairing_of_records(alloc, id, &rows.periods, &rows.segments) {
        Ok(free) => free,
        Err(fault) => return Err(as_store_fault(fault)),
    };
    pairing.captain = holder_in(alloc, 0, &rows.seats)?;
    pairing.first_officer = holder_in(alloc, 1, &rows.seats)?;
    Ok(Some(pairing))
}

/// Reads the pairing of an id.
#[tactic(auto, using(crate::proofs::Causes::not_told))]
pub fn pairing_at<S: Alter>(
    alloc: Global,
    conn: &mut Connection<S>,
    id: &PairingId,
) -> Result<Option<PairingEntry>, StoreFault>
    requires outside { IsOutside (state S.Store conn.old) }
    requires over { IsOverBook (state S.Store conn.old) }
    ensures { ReadsByKey (λ s found. found ≡ fin.get s.pairings id.now) (state S.Store conn.old)
        (state S.Store conn.new) result }
{
    let rows = plan_rows(alloc, conn, id.as_str())?;
    pairing_of_rows(alloc, id, &rows)
}
