//! The tables of a book, made in a database that has none of them, and those that version 2 has besides version 1.
//! Files beside whose tables a book is made, or isn't: `tests/tables.py`. Wrong bodies: `must-fail-more/`.

ghost use Rattle.std.specs.Prelude.{IsTrue, ◌↔◌, ◌≡◌, []};
ghost use Rattle.sqlite.specs.Held.{state};
ghost use Rattle.sqlite.specs.State.{HasCleanDisk};
ghost use Rattle.tables.specs.Records.{base_row, book_row};
ghost use Rattle.tables.specs.Rows.{Inserts};
ghost use Rattle.tables.specs.Schema.{AreFree, base_table, book_table, book_tables, first_tables, later_tables};
ghost use Rattle.writing.specs.Calls.{IsInside, Changed, Then};
ghost use Rattle.writing.specs.Making.{HasEmpty, MakesTables, IsFree, made_first, made_second, made_third};

use sqlite::{Alter, Connection};
use state_rows::StoreFault;
use tables::base::{BaseRecord, create_base, insert_base};
use tables::book::{BookRecord, create_book, insert_book};
use tables::book_schema::is_name_free;
use tables::crew::create_crew;
use tables::crew_base::create_crew_base;
use tables::exceedance::create_exceedance;
use tables::ground::create_ground;
use tables::outside::create_outside;
use tables::outside_segment::create_outside_segment;
use tables::pairing::create_pairing;
use tables::period::create_period;
use tables::request::create_request;
use tables::seat::create_seat;
use tables::segment::create_segment;

/// Returns whether no table has the name of one of version 1, and no foreign key refers to one.
fn are_first_free<S: Alter>(conn: &Connection<S>) -> bool
    ensures { IsTrue result ↔ AreFree first_tables (state S.Store conn.now).now.schema }
{
    is_name_free(conn, "book")
        && is_name_free(conn, "crew")
        && is_name_free(conn, "pairing")
        && is_name_free(conn, "period")
        && is_name_free(conn, "segment")
        && is_name_free(conn, "seat")
        && is_name_free(conn, "ground")
        && is_name_free(conn, "exceedance")
        && is_name_free(conn, "request")
}

/// Returns whether no table has the name of one that version 2 has besides, and no foreign key refers to one.
fn are_later_free<S: Alter>(conn: &Connection<S>) -> bool
    ensures { IsTrue result ↔ AreFree later_tables (state S.Store conn.now).now.schema }
{
    is_name_free(conn, "base")
        && is_name_free(conn, "crew_base")
        && is_name_free(conn, "outside")
        && is_name_free(conn, "outside_segment")
}

/// Returns whether no table has the name of one of the book, and no foreign key refers to one.
pub(crate) fn is_free<S: Alter>(conn: &Connection<S>) -> bool
    ensures { IsTrue result ↔ IsFree (state S.Store conn.now).now.schema }
{
    are_first_free(conn) && are_later_free(conn)
}

/// Makes the tables, with the row of the book and that of its base. They are made in threes for the prover alone, which is
/// shown once what three calls in turn make.
pub(crate) fn make_tables<S: Alter>(
    conn: &mut Connection<S>,
    book: &BookRecord,
    home: &BaseRecord,
) -> Result<(), StoreFault>
    requires free { HasCleanDisk (state S.Store conn.old)
        → HasEmpty [] (state S.Store conn.old).now }
    requires inside { IsInside (state S.Store conn.old) }
    ensures { Changed (Then (MakesTables book_tables) (Then (Inserts book_table (book_row book.now))
        (Inserts base_table (base_row home.now)))) (state S.Store conn.old)
        (state S.Store conn.new) result }
{
    make_first(conn)?;
    make_second(conn)?;
    make_third(conn)?;
    make_later(conn)?;
    insert_book(conn, book)?;
    Ok(insert_base(conn, home)?)
}

/// Makes the tables `book`, `crew` and `pairing`.
fn make_first<S: Alter>(conn: &mut Connection<S>) -> Result<(), StoreFault>
    requires { IsInside (state S.Store conn.old) }
    ensures { Changed (MakesTables made_first) (state S.Store conn.old)
        (state S.Store conn.new) result }
{
    create_book(conn)?;
    create_crew(conn)?;
    Ok(create_pairing(conn)?)
}

/// Makes the tables `period`, `segment` and `seat`.
fn make_second<S: Alter>(conn: &mut Connection<S>) -> Result<(), StoreFault>
    requires { IsInside (state S.Store conn.old) }
    ensures { Changed (MakesTables made_second) (state S.Store conn.old)
        (state S.Store conn.new) result }
{
    create_period(conn)?;
    create_segment(conn)?;
    Ok(create_seat(conn)?)
}

/// Makes the tables `ground`, `exceedance` and `request`.
fn make_third<S: Alter>(conn: &mut Connection<S>) -> Result<(), StoreFault>
    requires { IsInside (state S.Store conn.old) }
    ensures { Changed (MakesTables made_third) (state S.Store conn.old)
        (state S.Store conn.new) result }
{
    create_ground(conn)?;
    create_exceedance(conn)?;
    Ok(create_request(conn)?)
}

/// Makes the tables that version 2 has besides: `base`, `crew_base`, `outside` and `outside_segment`.
pub(crate) fn make_later<S: Alter>(conn: &mut Connection<S>) -> Result<(), StoreFault>
    requires { IsInside (state S.Store conn.old) }
    ensures { Changed (MakesTables later_tables) (state S.Store conn.old)
        (state S.Store conn.new) result }
{
    create_base(conn)?;
    create_crew_base(conn)?;
    create_outside(conn)?;
    Ok(create_outside_segment(conn)?)
}
