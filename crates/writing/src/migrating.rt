//! A book of version 1 becomes one of version 2, in one transaction. Wrong bodies: `must-fail/` and `must-fail-more/`.

ghost use Rattle.std.specs.Prelude.{OnErr, OnOk};
ghost use Rattle.std.specs.FinMap as fin;
ghost use Rattle.sqlite.specs.Held.{state};
ghost use Rattle.sqlite.specs.State.{HasCleanDisk};
ghost use Rattle.writing.specs.Calls.{Changed, IsInside, IsReady, Wrote};
ghost use Rattle.writing.specs.Commits.{IsMigrated};
ghost use Rattle.state_rows.specs.Kept.{IsFirstBookOf};
ghost use Rattle.writing.specs.Migration.{AddsHome, AddsPost, AddsPosts, Fills, Migrates, SetsVersion};
ghost use Rattle.state_rows.specs.Outcomes.{IsOutside, IsOverBook, ShowsFirst};
ghost use Rattle.state_rows.specs.Requests.{Requests, with_requests};

use crate::making::make_later;
use crate::records::{home_record, post_record};
use crate::transaction::end;
use command::Member;
use duty::{BaseId, CrewId};
use roster::Roster;
use sqlite::{Alter, Connection};
use state_rows::StoreFault;
use std::alloc::Global;
use tables::base::insert_base;
use tables::book::update_book;
use tables::crew_base::insert_crew_base;
use tables::transaction::begin;
use time117::Zone;
use values::OrdMap;

/// Makes a book of version 1 one of version 2, in one transaction: the tables that version 1 lacks, with the base that every
/// book has and the base of each member, and the version. The roster is what was read of it, whatever commands it has kept.
pub fn migrate_book<S: Alter>(
    alloc: Global,
    conn: &mut Connection<S>,
    roster: &Roster,
) -> Result<(), StoreFault>
    requires outside { IsOutside (state S.Store conn.old) }
    requires found { (kept : Requests) × ShowsFirst (state S.Store conn.old)
        (with_requests kept roster.now) }
    ensures migrated { (kept : Requests)
        → ShowsFirst (state S.Store conn.old) (with_requests kept roster.now)
        → IsMigrated (state S.Store conn.old) (state S.Store conn.new)
        (with_requests kept roster.now) result }
    // what a store over it goes by
    ensures over { OnOk result (IsOverBook (state S.Store conn.new)) }
    ensures again { (kept : Requests)
        → ShowsFirst (state S.Store conn.old) (with_requests kept roster.now)
        → OnErr result (ShowsFirst (state S.Store conn.new) (with_requests kept roster.now)) }
    ensures outside { IsOutside (state S.Store conn.new) }
{
    // The clauses of these calls say that an open connection shows a database, and outside a transaction what is committed.
    let _live = conn.schema();
    let _settled = conn.is_autocommit();
    begin(conn)?;
    let done = write_later(alloc, conn, roster);
    end(conn, done)
}

/// Makes the tables that version 1 lacks, and writes their rows.
fn write_later<S: Alter>(
    alloc: Global,
    conn: &mut Connection<S>,
    roster: &Roster,
) -> Result<(), StoreFault>
    requires inside { IsInside (state S.Store conn.old) }
    requires found { (kept : Requests) × (HasCleanDisk (state S.Store conn.old)
        → IsFirstBookOf (with_requests kept roster.now) (state S.Store conn.old).now) }
    ensures { Changed (Migrates roster.now) (state S.Store conn.old) (state S.Store conn.new)
        result }
{
    make_later(conn)?;
    fill_later(alloc, conn, roster)
}

/// Writes the rows of the tables that version 1 lacks, and the version.
#[tactic(auto, using(crate::proofs::Chaining::then_write, crate::proofs::Chaining::write_stopped))]
fn fill_later<S: Alter>(
    alloc: Global,
    conn: &mut Connection<S>,
    roster: &Roster,
) -> Result<(), StoreFault>
    requires { IsReady (state S.Store conn.old) }
    ensures { Wrote (Fills roster.now) (state S.Store conn.old) (state S.Store conn.new) result }
{
    add_home(alloc, conn, roster.bases.home())?;
    add_posts(alloc, conn, &roster.crew)?;
    set_version(conn)
}

/// Writes the base that every book has.
#[tactic(auto, using(crate::proofs::Chaining::one_write, crate::proofs::Tables::inserts_keep))]
fn add_home<S: Alter>(
    alloc: Global,
    conn: &mut Connection<S>,
    zone: &Zone,
) -> Result<(), StoreFault>
    requires { IsReady (state S.Store conn.old) }
    ensures { Wrote (AddsHome zone.now) (state S.Store conn.old) (state S.Store conn.new) result }
{
    let record = home_record(alloc, zone)?;
    Ok(insert_base(conn, &record)?)
}

/// Writes the bases of these members.
#[tactic(auto, using(crate::proofs::Chaining::each_start))]
fn add_posts<S: Alter>(
    alloc: Global,
    conn: &mut Connection<S>,
    crew: &OrdMap<CrewId, Member>,
) -> Result<(), StoreFault>
    requires { IsReady (state S.Store conn.old) }
    ensures { Wrote (AddsPosts (fin.entries crew.now)) (state S.Store conn.old)
        (state S.Store conn.new) result }
{
    for (id, member) in crew.iter() {
        add_post(alloc, conn, id, &member.base)?;
    }
    Ok(())
}

/// Writes the base of a member.
#[tactic(auto, using(crate::proofs::Chaining::one_write, crate::proofs::Tables::inserts_keep))]
pub(crate) fn add_post<S: Alter>(
    alloc: Global,
    conn: &mut Connection<S>,
    crew: &CrewId,
    base: &BaseId,
) -> Result<(), StoreFault>
    requires { IsReady (state S.Store conn.old) }
    ensures { Wrote (AddsPost crew.now base.now) (state S.Store conn.old)
        (state S.Store conn.new) result }
{
    let record = post_record(alloc, crew, base)?;
    Ok(insert_crew_base(conn, &record)?)
}

/// Writes that the tables are of version 2.
#[tactic(auto, using(crate::proofs::Chaining::one_write, crate::proofs::Tables::updates_keep))]
fn set_version<S: Alter>(conn: &mut Connection<S>) -> Result<(), StoreFault>
    requires { IsReady (state S.Store conn.old) }
    ensures { Wrote SetsVersion (state S.Store conn.old) (state S.Store conn.new) result }
{
    Ok(update_book(conn, 2)?)
}
