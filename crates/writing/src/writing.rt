//! What an accepted command writes, table by table. Each function runs in a transaction that is begun, and after a fault
//! it has changed nothing that the end of the transaction doesn't take back.
//! The rows that each command leaves: `tests/tables.py`. Wrong bodies: `must-fail/` and `must-fail-more/`.

ghost use Rattle.std.specs.Prelude.{◌≡◌, ◌≤◌, ◌<◌, [], ◌∷◌, length, None};
ghost use Rattle.sqlite.specs.Held.{state};
ghost use Rattle.sqlite_value.specs.declared.value.Value.TheVariants as value;
ghost use Rattle.tables.specs.Records.{request_row};
ghost use Rattle.tables.specs.Rows.{Inserts, Deletes, begins_with};
ghost use Rattle.writing.specs.Calls.{IsReady, Wrote};
ghost use Rattle.state_rows.specs.Rows.{table, base, crew, pairing, period, segment, ground_duty, request, outside, outside_segment, row_of_base, row_of_member, row_of_pairing, row_of_period, row_of_segment, row_of_ground, row_of_request};
ghost use Rattle.state_rows.specs.Counts.{HaveFewSegments};
ghost use Rattle.writing.specs.Writing.{AddsMember, AddsPeriods, AddsSegmentsOf, AddsSegments, AddsPairing, RemovesPairing, FreesSeat, TakesSeat, Reseats, ReseatsAll, FliesSegment, FliesSegments, FliesPeriod, Records, RecordsAll, RecordsFlown, RecordsOutsideOf, Flies, RemovesOutside, AddsOutsideRow, AddsOutsideSegment, AddsOutsideSegments, AddsOutside, ReplacesOutside, WritesInstruction, Writes};

use crate::migrating::add_post;
use crate::records::{
    base_record, crew_record, exceedance_record, ground_record, number_of_seat, outside_record,
    outside_segment_record, pairing_record, period_record, seat_record, segment_record,
};
use command::{Exceedance, Instruction, Key, Member};
use duty::{
    Actual, BaseId, BlockTimes, CrewId, Fdp, Ground, GroundId, Outside, OutsideId, Pairing,
    PairingId, Segment,
};
use roster::{Change, DutyId, PeriodId, SeatChange};
use sqlite::{Alter, Connection};
use state_rows::StoreFault;
use std::alloc::Global;
use tables::base::insert_base;
use tables::crew::insert_crew;
use tables::exceedance::insert_exceedance;
use tables::ground::{delete_ground, insert_ground};
use tables::outside::{delete_outside, insert_outside};
use tables::outside_segment::{delete_outside_segments, insert_outside_segment};
use tables::pairing::{delete_pairing, insert_pairing};
use tables::period::{delete_periods, insert_period, update_period};
use tables::request::{RequestRecord, insert_request};
use tables::seat::{delete_seat, insert_seat};
use tables::segment::{delete_segments, insert_segment, update_segment};
use time117::Zone;
use values::TryClone;

/// Writes a new base.
#[tactic(auto, using(crate::proofs::Chaining::one_write, crate::proofs::Tables::inserts_keep))]
fn add_base<S: Alter>(
    alloc: Global,
    conn: &mut Connection<S>,
    id: &BaseId,
    zone: &Zone,
) -> Result<(), StoreFault>
    requires { IsReady (state S.Store conn.old) }
    ensures { Wrote (Inserts (table base) (row_of_base id.now zone.now))
        (state S.Store conn.old) (state S.Store conn.new) result }
{
    let record = base_record(alloc, id, zone)?;
    Ok(insert_base(conn, &record)?)
}

/// Writes the row of a new member.
#[tactic(auto, using(crate::proofs::Chaining::one_write, crate::proofs::Tables::inserts_keep))]
fn add_crew<S: Alter>(
    alloc: Global,
    conn: &mut Connection<S>,
    id: &CrewId,
    member: &Member,
) -> Result<(), StoreFault>
    requires { IsReady (state S.Store conn.old) }
    ensures { Wrote (Inserts (table crew) (row_of_member id.now member.now))
        (state S.Store conn.old) (state S.Store conn.new) result }
{
    let record = crew_record(alloc, id, member)?;
    Ok(insert_crew(conn, &record)?)
}

/// Writes a new member, with the member's base.
#[tactic(auto, using(crate::proofs::Chaining::then_write, crate::proofs::Chaining::write_stopped))]
fn add_member<S: Alter>(
    alloc: Global,
    conn: &mut Connection<S>,
    id: &CrewId,
    member: &Member,
) -> Result<(), StoreFault>
    requires { IsReady (state S.Store conn.old) }
    ensures { Wrote (AddsMember id.now member.now) (state S.Store conn.old)
        (state S.Store conn.new) result }
{
    add_crew(alloc, conn, id, member)?;
    add_post(alloc, conn, id, &member.base)
}

/// Writes a new ground duty.
#[tactic(auto, using(crate::proofs::Chaining::one_write, crate::proofs::Tables::inserts_keep))]
fn add_ground<S: Alter>(
    alloc: Global,
    conn: &mut Connection<S>,
    ground: &Ground,
) -> Result<(), StoreFault>
    requires { IsReady (state S.Store conn.old) }
    ensures { Wrote (Inserts (table ground_duty) (row_of_ground ground.now.id ground.now))
        (state S.Store conn.old) (state S.Store conn.new) result }
{
    let record = ground_record(alloc, ground)?;
    Ok(insert_ground(conn, &record)?)
}

/// Deletes the ground duty.
#[tactic(auto, using(crate::proofs::Chaining::one_write, crate::proofs::Tables::deletes_keep))]
fn remove_ground<S: Alter>(conn: &mut Connection<S>, id: &GroundId) -> Result<(), StoreFault>
    requires { IsReady (state S.Store conn.old) }
    ensures { Wrote (Deletes (table ground_duty) (begins_with (value.Text id.now ∷ [])))
        (state S.Store conn.old) (state S.Store conn.new) result }
{
    Ok(delete_ground(conn, id.as_str())?)
}

/// Writes a period as it is planned, by its place in the pairing.
#[tactic(auto, using(crate::proofs::Chaining::one_write, crate::proofs::Tables::inserts_keep))]
fn add_period<S: Alter>(
    alloc: Global,
    conn: &mut Connection<S>,
    id: &PairingId,
    place: usize,
    fdp: &Fdp,
) -> Result<(), StoreFault>
    requires ready { IsReady (state S.Store conn.old) }
    requires place { place < 10 }
    ensures { Wrote (Inserts (table period) (row_of_period id.now place fdp.now None))
        (state S.Store conn.old) (state S.Store conn.new) result }
{
    let record = period_record(alloc, id, place, fdp)?;
    Ok(insert_period(conn, &record)?)
}

/// Writes the periods of a pairing.
#[tactic(auto, using(crate::proofs::Chaining::each_start, crate::proofs::Chaining::each_turn))]
fn add_periods<S: Alter>(
    alloc: Global,
    conn: &mut Connection<S>,
    id: &PairingId,
    periods: &[Fdp],
) -> Result<(), StoreFault>
    requires ready { IsReady (state S.Store conn.old) }
    requires few { length periods.now ≤ 10 }
    ensures { Wrote (AddsPeriods id.now periods.now) (state S.Store conn.old)
        (state S.Store conn.new) result }
{
    for (place, fdp) in periods.iter().enumerate() {
        add_period(alloc, conn, id, place, fdp)?;
    }
    Ok(())
}

/// Writes a segment as it is planned, by its place in the period and the period's in the pairing.
#[tactic(auto, using(crate::proofs::Chaining::one_write, crate::proofs::Tables::inserts_keep))]
fn add_segment<S: Alter>(
    alloc: Global,
    conn: &mut Connection<S>,
    id: &PairingId,
    place: usize,
    at: usize,
    leg: &Segment,
) -> Result<(), StoreFault>
    requires ready { IsReady (state S.Store conn.old) }
    requires place { place < 10 }
    requires at { at < 12 }
    ensures { Wrote (Inserts (table segment) (row_of_segment id.now place at leg.now None))
        (state S.Store conn.old) (state S.Store conn.new) result }
{
    let record = segment_record(alloc, id, place, at, leg)?;
    Ok(insert_segment(conn, &record)?)
}

/// Writes the segments of a period.
#[tactic(auto, using(crate::proofs::Chaining::each_start))]
fn add_segments_of<S: Alter>(
    alloc: Global,
    conn: &mut Connection<S>,
    id: &PairingId,
    place: usize,
    legs: &[Segment],
) -> Result<(), StoreFault>
    requires ready { IsReady (state S.Store conn.old) }
    requires place { place < 10 }
    requires few { length legs.now ≤ 12 }
    ensures { Wrote (AddsSegmentsOf id.now place legs.now) (state S.Store conn.old)
        (state S.Store conn.new) result }
{
    for (at, leg) in legs.iter().enumerate() {
        add_segment(alloc, conn, id, place, at, leg)?;
    }
    Ok(())
}

/// Writes the segments of all periods of a pairing.
#[tactic(auto, using(crate::proofs::Chaining::each_start))]
fn add_segments<S: Alter>(
    alloc: Global,
    conn: &mut Connection<S>,
    id: &PairingId,
    periods: &[Fdp],
) -> Result<(), StoreFault>
    requires ready { IsReady (state S.Store conn.old) }
    requires few { length periods.now ≤ 10 }
    requires few_each { HaveFewSegments periods.now }
    ensures { Wrote (AddsSegments id.now periods.now) (state S.Store conn.old)
        (state S.Store conn.new) result }
{
    for (place, fdp) in periods.iter().enumerate() {
        add_segments_of(alloc, conn, id, place, fdp.segments.as_slice())?;
    }
    Ok(())
}

/// Writes the row of a pairing.
#[tactic(auto, using(crate::proofs::Chaining::one_write, crate::proofs::Tables::inserts_keep))]
fn add_id<S: Alter>(
    alloc: Global,
    conn: &mut Connection<S>,
    id: &PairingId,
) -> Result<(), StoreFault>
    requires { IsReady (state S.Store conn.old) }
    ensures { Wrote (Inserts (table pairing) (row_of_pairing id.now)) (state S.Store conn.old)
        (state S.Store conn.new) result }
{
    let record = pairing_record(alloc, id)?;
    Ok(insert_pairing(conn, &record)?)
}

/// Writes a new pairing, both seats free.
#[tactic(auto, using(crate::proofs::Chaining::then_write, crate::proofs::Chaining::write_stopped, crate::proofs::FewPeriods::few_periods, crate::proofs::FewPeriods::few_segments))]
fn add_pairing<S: Alter>(
    alloc: Global,
    conn: &mut Connection<S>,
    plan: &Pairing,
) -> Result<(), StoreFault>
    requires { IsReady (state S.Store conn.old) }
    ensures { Wrote (AddsPairing plan.now) (state S.Store conn.old)
        (state S.Store conn.new) result }
{
    let periods = plan.periods();
    add_id(alloc, conn, plan.id())?;
    add_periods(alloc, conn, plan.id(), periods)?;
    add_segments(alloc, conn, plan.id(), periods)
}

/// Deletes the pairing, with its periods and their segments.
#[tactic(auto, using(crate::proofs::Chaining::one_write, crate::proofs::Chaining::then_write, crate::proofs::Chaining::write_stopped, crate::proofs::Tables::deletes_keep))]
fn remove_pairing<S: Alter>(conn: &mut Connection<S>, id: &PairingId) -> Result<(), StoreFault>
    requires { IsReady (state S.Store conn.old) }
    ensures { Wrote (RemovesPairing id.now) (state S.Store conn.old)
        (state S.Store conn.new) result }
{
    remove_segments(conn, id)?;
    remove_periods(conn, id)?;
    remove_id(conn, id)
}

#[tactic(auto, using(crate::proofs::Chaining::one_write, crate::proofs::Tables::deletes_keep))]
fn remove_segments<S: Alter>(conn: &mut Connection<S>, id: &PairingId) -> Result<(), StoreFault>
    requires { IsReady (state S.Store conn.old) }
    ensures { Wrote (Deletes (table segment) (begins_with (value.Text id.now ∷ [])))
        (state S.Store conn.old) (state S.Store conn.new) result }
{
    Ok(delete_segments(conn, id.as_str())?)
}

#[tactic(auto, using(crate::proofs::Chaining::one_write, crate::proofs::Tables::deletes_keep))]
fn remove_periods<S: Alter>(conn: &mut Connection<S>, id: &PairingId) -> Result<(), StoreFault>
    requires { IsReady (state S.Store conn.old) }
    ensures { Wrote (Deletes (table period) (begins_with (value.Text id.now ∷ [])))
        (state S.Store conn.old) (state S.Store conn.new) result }
{
    Ok(delete_periods(conn, id.as_str())?)
}

#[tactic(auto, using(crate::proofs::Chaining::one_write, crate::proofs::Tables::deletes_keep))]
fn remove_id<S: Alter>(conn: &mut Connection<S>, id: &PairingId) -> Result<(), StoreFault>
    requires { IsReady (state S.Store conn.old) }
    ensures { Wrote (Deletes (table pairing) (begins_with (value.Text id.now ∷ [])))
        (state S.Store conn.old) (state S.Store conn.new) result }
{
    Ok(delete_pairing(conn, id.as_str())?)
}

/// Frees a seat.
#[tactic(auto, using(crate::proofs::Chaining::one_write, crate::proofs::Tables::deletes_keep))]
fn free_seat<S: Alter>(conn: &mut Connection<S>, change: &SeatChange) -> Result<(), StoreFault>
    requires { IsReady (state S.Store conn.old) }
    ensures { Wrote (FreesSeat change.now) (state S.Store conn.old)
        (state S.Store conn.new) result }
{
    let seat = number_of_seat(change.seat);
    Ok(delete_seat(conn, change.pairing.as_str(), seat)?)
}

/// Writes that a member takes a free seat.
#[tactic(auto, using(crate::proofs::Chaining::one_write, crate::proofs::Tables::inserts_keep))]
fn take_seat<S: Alter>(
    alloc: Global,
    conn: &mut Connection<S>,
    change: &SeatChange,
    who: &CrewId,
) -> Result<(), StoreFault>
    requires { IsReady (state S.Store conn.old) }
    ensures { Wrote (TakesSeat change.now who.now) (state S.Store conn.old)
        (state S.Store conn.new) result }
{
    let record = seat_record(alloc, &change.pairing, change.seat, who)?;
    Ok(insert_seat(conn, &record)?)
}

/// Gives a seat a holder in the place of the one before, or none.
#[tactic(auto, using(crate::proofs::Chaining::then_write, crate::proofs::Chaining::write_stopped, crate::proofs::Chaining::then_nothing))]
fn reseat_one<S: Alter>(
    alloc: Global,
    conn: &mut Connection<S>,
    change: &SeatChange,
) -> Result<(), StoreFault>
    requires { IsReady (state S.Store conn.old) }
    ensures { Wrote (Reseats change.now) (state S.Store conn.old) (state S.Store conn.new) result }
{
    free_seat(conn, change)?;
    match &change.holder {
        Some(who) => take_seat(alloc, conn, change, who),
        None => Ok(()),
    }
}

/// Gives the seats their holders.
#[tactic(auto, using(crate::proofs::Chaining::each_start))]
fn reseat<S: Alter>(
    alloc: Global,
    conn: &mut Connection<S>,
    changes: &[SeatChange],
) -> Result<(), StoreFault>
    requires { IsReady (state S.Store conn.old) }
    ensures { Wrote (ReseatsAll changes.now) (state S.Store conn.old)
        (state S.Store conn.new) result }
{
    for change in changes {
        reseat_one(alloc, conn, change)?;
    }
    Ok(())
}

/// Writes the times of a period as it was flown.
#[tactic(auto, using(crate::proofs::Chaining::one_write, crate::proofs::Tables::updates_keep))]
fn fly_period<S: Alter>(
    conn: &mut Connection<S>,
    id: &PairingId,
    actual: &Actual,
) -> Result<(), StoreFault>
    requires { IsReady (state S.Store conn.old) }
    ensures { Wrote (FliesPeriod id.now actual.now) (state S.Store conn.old)
        (state S.Store conn.new) result }
{
    let number = u32::from(actual.period());
    let report = actual.report().number();
    let release = actual.release().number();
    Ok(update_period(conn, id.as_str(), number, report, release)?)
}

/// Writes the times of a segment as it was flown, by its place in the period.
#[tactic(auto, using(crate::proofs::Chaining::one_write, crate::proofs::Tables::updates_keep))]
fn fly_segment<S: Alter>(
    conn: &mut Connection<S>,
    id: &PairingId,
    number: u8,
    at: usize,
    times: &BlockTimes,
) -> Result<(), StoreFault>
    requires ready { IsReady (state S.Store conn.old) }
    requires at { at < 12 }
    ensures { Wrote (FliesSegment id.now number at times.now) (state S.Store conn.old)
        (state S.Store conn.new) result }
{
    let block_out = times.block_out.number();
    let block_in = times.block_in.number();
    Ok(update_segment(
        conn,
        id.as_str(),
        u32::from(number),
        at as u32 + 1,
        block_out,
        block_in,
    )?)
}

/// Writes the times of the segments of a period as they were flown.
#[tactic(auto, using(crate::proofs::Chaining::each_start))]
fn fly_segments<S: Alter>(
    conn: &mut Connection<S>,
    id: &PairingId,
    number: u8,
    legs: &[BlockTimes],
) -> Result<(), StoreFault>
    requires ready { IsReady (state S.Store conn.old) }
    requires few { length legs.now ≤ 12 }
    ensures { Wrote (FliesSegments id.now number legs.now) (state S.Store conn.old)
        (state S.Store conn.new) result }
{
    for (at, times) in legs.iter().enumerate() {
        fly_segment(conn, id, number, at, times)?;
    }
    Ok(())
}

/// Writes an exceedance of a duty.
#[tactic(auto, using(crate::proofs::Chaining::one_write, crate::proofs::Tables::inserts_keep))]
fn record_one<S: Alter>(
    alloc: Global,
    conn: &mut Connection<S>,
    key: Key,
    named: &DutyId,
    broken: &Exceedance,
) -> Result<(), StoreFault>
    requires { IsReady (state S.Store conn.old) }
    ensures { Wrote (Records key named.now broken.now) (state S.Store conn.old)
        (state S.Store conn.new) result }
{
    let record = exceedance_record(alloc, key, broken, named)?;
    Ok(insert_exceedance(conn, &record)?)
}

/// Writes the exceedances that a command records of a duty.
#[tactic(auto, using(crate::proofs::Chaining::each_start))]
fn record_all<S: Alter>(
    alloc: Global,
    conn: &mut Connection<S>,
    key: Key,
    named: &DutyId,
    exceedances: &[Exceedance],
) -> Result<(), StoreFault>
    requires { IsReady (state S.Store conn.old) }
    ensures { Wrote (RecordsAll key named.now exceedances.now) (state S.Store conn.old)
        (state S.Store conn.new) result }
{
    for broken in exceedances {
        record_one(alloc, conn, key, named, broken)?;
    }
    Ok(())
}

/// Writes the exceedances that a change records of a period of a pairing.
fn record_flown<S: Alter>(
    alloc: Global,
    conn: &mut Connection<S>,
    change: &Change,
    id: &PairingId,
    number: u8,
) -> Result<(), StoreFault>
    requires { IsReady (state S.Store conn.old) }
    ensures { Wrote (RecordsFlown change.now id.now number) (state S.Store conn.old)
        (state S.Store conn.new) result }
{
    let named = DutyId::Period(PeriodId {
        pairing: id.try_clone(alloc)?,
        number,
    });
    let exceedances = change.reply.exceedances.as_slice();
    record_all(alloc, conn, change.key, &named, exceedances)
}

/// Writes how a period was flown, and the exceedances of it.
#[tactic(auto, using(crate::proofs::Chaining::then_write, crate::proofs::Chaining::write_stopped, crate::proofs::FewPeriods::few_flown))]
fn fly<S: Alter>(
    alloc: Global,
    conn: &mut Connection<S>,
    change: &Change,
    id: &PairingId,
    actual: &Actual,
) -> Result<(), StoreFault>
    requires { IsReady (state S.Store conn.old) }
    ensures { Wrote (Flies change.now id.now actual.now) (state S.Store conn.old)
        (state S.Store conn.new) result }
{
    let number = actual.period();
    fly_period(conn, id, actual)?;
    fly_segments(conn, id, number, actual.segments())?;
    record_flown(alloc, conn, change, id, number)
}

/// Deletes the outside period, with its segments, if there is one.
#[tactic(auto, using(crate::proofs::Chaining::one_write, crate::proofs::Chaining::then_write, crate::proofs::Chaining::write_stopped, crate::proofs::Tables::deletes_keep))]
fn remove_outside<S: Alter>(conn: &mut Connection<S>, id: &OutsideId) -> Result<(), StoreFault>
    requires { IsReady (state S.Store conn.old) }
    ensures { Wrote (RemovesOutside id.now) (state S.Store conn.old)
        (state S.Store conn.new) result }
{
    remove_outside_segments(conn, id)?;
    remove_outside_row(conn, id)
}

#[tactic(auto, using(crate::proofs::Chaining::one_write, crate::proofs::Tables::deletes_keep))]
fn remove_outside_segments<S: Alter>(
    conn: &mut Connection<S>,
    id: &OutsideId,
) -> Result<(), StoreFault>
    requires { IsReady (state S.Store conn.old) }
    ensures { Wrote (Deletes (table outside_segment) (begins_with (value.Text id.now ∷ [])))
        (state S.Store conn.old) (state S.Store conn.new) result }
{
    Ok(delete_outside_segments(conn, id.as_str())?)
}

#[tactic(auto, using(crate::proofs::Chaining::one_write, crate::proofs::Tables::deletes_keep))]
fn remove_outside_row<S: Alter>(conn: &mut Connection<S>, id: &OutsideId) -> Result<(), StoreFault>
    requires { IsReady (state S.Store conn.old) }
    ensures { Wrote (Deletes (table outside) (begins_with (value.Text id.now ∷ [])))
        (state S.Store conn.old) (state S.Store conn.new) result }
{
    Ok(delete_outside(conn, id.as_str())?)
}

/// Writes the row of an outside period, with the member who flew it.
#[tactic(auto, using(crate::proofs::Chaining::one_write, crate::proofs::Tables::inserts_keep))]
fn add_outside_row<S: Alter>(
    alloc: Global,
    conn: &mut Connection<S>,
    who: &CrewId,
    flying: &Outside,
) -> Result<(), StoreFault>
    requires { IsReady (state S.Store conn.old) }
    ensures { Wrote (AddsOutsideRow who.now flying.now) (state S.Store conn.old)
        (state S.Store conn.new) result }
{
    let record = outside_record(alloc, who, flying)?;
    Ok(insert_outside(conn, &record)?)
}

/// Writes a segment of an outside period, by its place in the period.
#[tactic(auto, using(crate::proofs::Chaining::one_write, crate::proofs::Tables::inserts_keep))]
fn add_outside_segment<S: Alter>(
    alloc: Global,
    conn: &mut Connection<S>,
    id: &OutsideId,
    at: usize,
    times: &BlockTimes,
) -> Result<(), StoreFault>
    requires ready { IsReady (state S.Store conn.old) }
    requires at { at < 12 }
    ensures { Wrote (AddsOutsideSegment id.now at times.now) (state S.Store conn.old)
        (state S.Store conn.new) result }
{
    let record = outside_segment_record(alloc, id, at, times)?;
    Ok(insert_outside_segment(conn, &record)?)
}

/// Writes the segments of an outside period.
#[tactic(auto, using(crate::proofs::Chaining::each_start))]
fn add_outside_segments<S: Alter>(
    alloc: Global,
    conn: &mut Connection<S>,
    id: &OutsideId,
    legs: &[BlockTimes],
) -> Result<(), StoreFault>
    requires ready { IsReady (state S.Store conn.old) }
    requires few { length legs.now ≤ 12 }
    ensures { Wrote (AddsOutsideSegments id.now legs.now) (state S.Store conn.old)
        (state S.Store conn.new) result }
{
    for (at, times) in legs.iter().enumerate() {
        add_outside_segment(alloc, conn, id, at, times)?;
    }
    Ok(())
}

/// Writes an outside period of a member, with its segments.
#[tactic(auto, using(crate::proofs::Chaining::then_write, crate::proofs::Chaining::write_stopped, crate::proofs::FewPeriods::few_outside))]
fn add_outside<S: Alter>(
    alloc: Global,
    conn: &mut Connection<S>,
    who: &CrewId,
    flying: &Outside,
) -> Result<(), StoreFault>
    requires { IsReady (state S.Store conn.old) }
    ensures { Wrote (AddsOutside who.now flying.now) (state S.Store conn.old)
        (state S.Store conn.new) result }
{
    add_outside_row(alloc, conn, who, flying)?;
    add_outside_segments(alloc, conn, flying.id(), flying.segments())
}

/// Writes the exceedances that a change records of an outside period.
fn record_outside_of<S: Alter>(
    alloc: Global,
    conn: &mut Connection<S>,
    change: &Change,
    id: &OutsideId,
) -> Result<(), StoreFault>
    requires { IsReady (state S.Store conn.old) }
    ensures { Wrote (RecordsOutsideOf change.now id.now) (state S.Store conn.old)
        (state S.Store conn.new) result }
{
    let named = DutyId::Outside(id.try_clone(alloc)?);
    let exceedances = change.reply.exceedances.as_slice();
    record_all(alloc, conn, change.key, &named, exceedances)
}

/// Writes an outside period of a member in the place of an earlier one with its id, and the exceedances of it.
#[tactic(auto, using(crate::proofs::Chaining::then_write, crate::proofs::Chaining::write_stopped))]
fn record_outside<S: Alter>(
    alloc: Global,
    conn: &mut Connection<S>,
    change: &Change,
    who: &CrewId,
    flying: &Outside,
) -> Result<(), StoreFault>
    requires { IsReady (state S.Store conn.old) }
    ensures { Wrote (ReplacesOutside change.now who.now flying.now) (state S.Store conn.old)
        (state S.Store conn.new) result }
{
    remove_outside(conn, flying.id())?;
    add_outside(alloc, conn, who, flying)?;
    record_outside_of(alloc, conn, change, flying.id())
}

/// Writes what a command changes, but for its request.
pub(crate) fn write_instruction<S: Alter>(
    alloc: Global,
    conn: &mut Connection<S>,
    change: &Change,
    instruction: &Instruction,
) -> Result<(), StoreFault>
    requires { IsReady (state S.Store conn.old) }
    ensures { Wrote (WritesInstruction change.now instruction.now) (state S.Store conn.old)
        (state S.Store conn.new) result }
{
    match instruction {
        Instruction::AddBase(id, zone) => add_base(alloc, conn, id, zone),
        Instruction::AddCrew(id, member) => add_member(alloc, conn, id, member),
        Instruction::AddPairing(plan) => add_pairing(alloc, conn, plan),
        Instruction::CancelPairing(id) => remove_pairing(conn, id),
        Instruction::Assign(..) | Instruction::Release(..) | Instruction::Swap(_) => {
            reseat(alloc, conn, change.seats.as_slice())
        }
        Instruction::AddGround(ground) => add_ground(alloc, conn, ground),
        Instruction::CancelGround(id) => remove_ground(conn, id),
        Instruction::Actual(id, actual) => fly(alloc, conn, change, id, actual),
        Instruction::RecordOutside(who, flying) => record_outside(alloc, conn, change, who, flying),
    }
}

/// Writes the change, and then its command with its reply under its key.
#[tactic(auto, using(crate::proofs::Chaining::one_write, crate::proofs::Tables::inserts_keep))]
pub(crate) fn write_change<S: Alter>(
    alloc: Global,
    conn: &mut Connection<S>,
    change: &Change,
    row: &RequestRecord,
) -> Result<(), StoreFault>
    requires ready { IsReady (state S.Store conn.old) }
    requires written { request_row row.now ≡ row_of_request change.now.key
        (record { command = change.now.command; reply = change.now.reply }) }
    ensures { Wrote (Writes change.now) (state S.Store conn.old) (state S.Store conn.new) result }
{
    write_instruction(alloc, conn, change, change.command.instruction())?;
    write_request(conn, row)
}

#[tactic(auto, using(crate::proofs::Chaining::one_write, crate::proofs::Tables::inserts_keep))]
fn write_request<S: Alter>(conn: &mut Connection<S>, row: &RequestRecord) -> Result<(), StoreFault>
    requires { IsReady (state S.Store conn.old) }
    ensures { Wrote (Inserts (table request) (request_row row.now)) (state S.Store conn.old)
        (state S.Store conn.new) result }
{
    Ok(insert_request(conn, row)?)
}
