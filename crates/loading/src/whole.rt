//! A book, read table by table in the order of the formats: the first table that isn't right is the one that a refusal
//! names.
//! Files with one damage and with two: `tests/tables.py`. Wrong bodies: `must-fail/` and `must-fail-more/`.

ghost use Rattle.std.specs.Prelude.{◌≡◌, IfOk};
ghost use Rattle.std.specs.FinMap as fin;
ghost use Rattle.sqlite.specs.Held.{state};
ghost use Rattle.sqlite.specs.State.{HasCleanDisk};
ghost use Rattle.entries.specs.Right.{IsOfEdition};
ghost use Rattle.loading.specs.Loading.{Justifies};
ghost use Rattle.loading.specs.Reading.{AgreesIn, HaveNoHolders, HasNoDuties, HasNoLater, AgreesThrough, ReadsAs};
ghost use Rattle.roster.specs.Bases.{home_zone};
ghost use Rattle.roster.specs.State.{empty};
ghost use Rattle.state_rows.specs.Requests.{Requests, with_requests};
ghost use Rattle.state_rows.specs.Rows.{book, ground_duty, outside_segment, request, segment};

use crate::later::read_later;
use crate::read_book::read_book;
use crate::read_crew::read_crew;
use crate::read_exceedances::read_exceedances;
use crate::read_grounds::read_grounds;
use crate::read_pairings::read_pairings;
use crate::read_requests::check_requests;
use crate::read_seats::read_seats;
use entries::LoadFault;
use roster::Roster;
use sqlite::{Alter, Connection};
use state_rows::Edition;
use std::alloc::Global;

/// Reads the members, and the pairings with their periods and segments, into a roster of nothing but HOME.
fn read_plans<S: Alter>(
    alloc: Global,
    conn: &mut Connection<S>,
    roster: Roster,
) -> Result<Roster, LoadFault>
    requires none { roster ≡ empty (home_zone roster.bases) }
    requires above { HasCleanDisk (state S.Store conn.old)
        → AgreesThrough book roster (state S.Store conn.old).now }
    ensures read { ReadsAs (λ r. AgreesThrough segment r (state S.Store conn.old).now)
        (λ fault. Justifies fault (state S.Store conn.old).now) (state S.Store conn.old)
        (state S.Store conn.new) result }
    ensures free { IfOk result HaveNoHolders }
    ensures rest { IfOk result HasNoDuties }
    ensures first { IfOk result HasNoLater }
{
    let roster = read_crew(alloc, conn, roster)?;
    read_pairings(alloc, conn, roster)
}

/// Reads who holds the seats, and the ground duties, into a roster of plans.
fn read_duties<S: Alter>(
    alloc: Global,
    conn: &mut Connection<S>,
    roster: Roster,
) -> Result<Roster, LoadFault>
    requires free { HaveNoHolders roster }
    requires none { HasNoDuties roster }
    requires first { HasNoLater roster }
    requires above { HasCleanDisk (state S.Store conn.old)
        → AgreesThrough segment roster (state S.Store conn.old).now }
    ensures read { ReadsAs (λ r. AgreesThrough ground_duty r (state S.Store conn.old).now)
        (λ fault. Justifies fault (state S.Store conn.old).now) (state S.Store conn.old)
        (state S.Store conn.new) result }
    ensures rest { IfOk result (λ r. (r.exceedances ≡ fin.empty) × (r.requests ≡ fin.empty)) }
    ensures first { IfOk result HasNoLater }
{
    let roster = read_seats(alloc, conn, roster)?;
    read_grounds(alloc, conn, roster)
}

/// Reads the exceedances into a roster of duties, of a file of this version, and checks the requests.
fn read_records<S: Alter>(
    alloc: Global,
    conn: &mut Connection<S>,
    roster: Roster,
    edition: Edition,
) -> Result<Roster, LoadFault>
    requires none { (roster.exceedances ≡ fin.empty) × (roster.requests ≡ fin.empty) }
    requires first { HasNoLater roster }
    requires above { HasCleanDisk (state S.Store conn.old)
        → AgreesThrough ground_duty roster (state S.Store conn.old).now }
    requires of { HasCleanDisk (state S.Store conn.old)
        → IsOfEdition edition (state S.Store conn.old).now }
    ensures read { (kept : Requests) × ReadsAs
        (λ r. AgreesThrough request (with_requests kept r) (state S.Store conn.old).now)
        (λ fault. Justifies fault (state S.Store conn.old).now) (state S.Store conn.old)
        (state S.Store conn.new) result }
    ensures first { IfOk result HasNoLater }
{
    let roster = read_exceedances(alloc, conn, roster, edition)?;
    check_requests(alloc, conn, &roster, edition)?;
    Ok(roster)
}

/// Reads the tables of version 1 after `book` into a roster of nothing but HOME, of a file of this version. The requests
/// are checked, and not kept.
fn read_first<S: Alter>(
    alloc: Global,
    conn: &mut Connection<S>,
    roster: Roster,
    edition: Edition,
) -> Result<Roster, LoadFault>
    requires none { roster ≡ empty (home_zone roster.bases) }
    requires above { HasCleanDisk (state S.Store conn.old)
        → AgreesThrough book roster (state S.Store conn.old).now }
    requires of { HasCleanDisk (state S.Store conn.old)
        → IsOfEdition edition (state S.Store conn.old).now }
    ensures read { (kept : Requests) × ReadsAs
        (λ r. AgreesThrough request (with_requests kept r) (state S.Store conn.old).now)
        (λ fault. Justifies fault (state S.Store conn.old).now) (state S.Store conn.old)
        (state S.Store conn.new) result }
    ensures first { IfOk result HasNoLater }
{
    let roster = read_plans(alloc, conn, roster)?;
    let roster = read_duties(alloc, conn, roster)?;
    read_records(alloc, conn, roster, edition)
}

/// Reads a whole book of version 1 or 2, table by table, with the version that it is of, and changes nothing. The roster
/// has all but the kept commands: these are checked too, but not kept. Refused are a database without a table `book` (40),
/// tables of another version (42), and one in which a table is damaged (41, with the first). A fault of the store is 90,
/// and out of memory 91.
pub fn read_all<S: Alter>(
    alloc: Global,
    conn: &mut Connection<S>,
) -> Result<(Roster, Edition), LoadFault>
    ensures read { (kept : Requests) × ReadsAs
        (λ r. AgreesIn r.1 outside_segment (with_requests kept r.0) (state S.Store conn.old).now)
        (λ fault. Justifies fault (state S.Store conn.old).now) (state S.Store conn.old)
        (state S.Store conn.new) result }
{
    let (roster, edition) = read_book(alloc, conn)?;
    let roster = read_first(alloc, conn, roster, edition)?;
    let roster = read_later(alloc, conn, roster, edition)?;
    Ok((roster, edition))
}
