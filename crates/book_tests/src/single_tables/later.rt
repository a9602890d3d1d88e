//! Calls on the tables of bases, of members' bases and of outside periods: each record that they find is reported as a line.

use crate::fault::Fault;
use crate::single_tables::keyed::{AsLine, in_order, look};
use crate::single_tables::making::make_tables;
use sqlite::{Alter, Connection};
use std::alloc::Global;
use std::test::Fail;
use tables::base::{BaseRecord, bases};
use tables::crew_base::{CrewBaseRecord, crew_base_by_crew};
use tables::outside::{
    OutsideRecord, delete_outside, insert_outside, outside_by_id, outsides_by_crew,
};
use tables::outside_segment::{
    OutsideSegmentRecord, delete_outside_segments, insert_outside_segment, outside_segments_of,
};
use values::Text;

impl AsLine for BaseRecord {
    fn line(&self, alloc: Global) -> Result<String, Fault> {
        Ok(format!(in alloc; "{}|{}", self.id.as_str(), self.zone.as_str())?)
    }
}

impl AsLine for CrewBaseRecord {
    fn line(&self, alloc: Global) -> Result<String, Fault> {
        Ok(format!(in alloc; "{}|{}", self.crew.as_str(), self.base.as_str())?)
    }
}

impl AsLine for OutsideRecord {
    fn line(&self, alloc: Global) -> Result<String, Fault> {
        let (id, crew) = (self.id.as_str(), self.crew.as_str());
        Ok(format!(in alloc; "{id}|{crew}|{}|{}", self.report_at, self.release_at)?)
    }
}

impl AsLine for OutsideSegmentRecord {
    fn line(&self, alloc: Global) -> Result<String, Fault> {
        let outside = self.outside.as_str();
        Ok(format!(in alloc; "{outside}|{}|{}|{}", self.number, self.out_at, self.in_at)?)
    }
}

/// A call that changes a table.
#[derive(Clone, Copy)]
enum Change {
    /// An outside period of this id and member, with its report and its release.
    Outside(&'static str, &'static str, u32, u32),
    /// A segment of this outside period and number, with its block-out and its block-in.
    Segment(&'static str, u32, u32, u32),
    NoOutside(&'static str),
    NoSegmentsOf(&'static str),
}

/// A call that looks for records.
#[derive(Clone, Copy)]
enum Search {
    Bases,
    BaseOf(&'static str),
    Outside(&'static str),
    OutsidesBy(&'static str),
    SegmentsOf(&'static str),
}

fn text(alloc: Global, text: &str) -> Result<Text, Fault> {
    Ok(Text::new(String::from_str(alloc, text)?))
}

fn outside(
    alloc: Global,
    (id, crew): (&str, &str),
    (report_at, release_at): (u32, u32),
) -> Result<OutsideRecord, Fault> {
    Ok(OutsideRecord {
        id: text(alloc, id)?,
        crew: text(alloc, crew)?,
        report_at,
        release_at,
    })
}

fn segment(
    alloc: Global,
    id: &str,
    (number, out_at, in_at): (u32, u32, u32),
) -> Result<OutsideSegmentRecord, Fault> {
    Ok(OutsideSegmentRecord {
        outside: text(alloc, id)?,
        number,
        out_at,
        in_at,
    })
}

fn add_outside<S: Alter>(
    alloc: Global,
    conn: &mut Connection<S>,
    record: &OutsideRecord,
) -> Result<(), Fault> {
    look(alloc, conn)?;
    Ok(insert_outside(conn, record)?)
}

fn add_segment<S: Alter>(
    alloc: Global,
    conn: &mut Connection<S>,
    record: &OutsideSegmentRecord,
) -> Result<(), Fault> {
    look(alloc, conn)?;
    Ok(insert_outside_segment(conn, record)?)
}

fn remove_outside<S: Alter>(
    alloc: Global,
    conn: &mut Connection<S>,
    id: &str,
) -> Result<(), Fault> {
    look(alloc, conn)?;
    Ok(delete_outside(conn, id)?)
}

fn remove_segments_of<S: Alter>(
    alloc: Global,
    conn: &mut Connection<S>,
    id: &str,
) -> Result<(), Fault> {
    look(alloc, conn)?;
    Ok(delete_outside_segments(conn, id)?)
}

/// Makes a change.
fn make<S: Alter>(alloc: Global, conn: &mut Connection<S>, change: Change) -> Result<(), Fault> {
    match change {
        Change::Outside(id, crew, report, release) => {
            add_outside(alloc, conn, &outside(alloc, (id, crew), (report, release))?)
        }
        Change::Segment(id, number, block_out, block_in) => {
            add_segment(
                alloc,
                conn,
                &segment(alloc, id, (number, block_out, block_in))?,
            )
        }
        Change::NoOutside(id) => remove_outside(alloc, conn, id),
        Change::NoSegmentsOf(id) => remove_segments_of(alloc, conn, id),
    }
}

/// The records that are found.
fn records_of<S: Alter>(
    alloc: Global,
    conn: &mut Connection<S>,
    search: Search,
) -> Result<String, Fault> {
    look(alloc, conn)?;
    match search {
        Search::Bases => in_order(alloc, bases(alloc, conn)),
        Search::BaseOf(crew) => in_order(alloc, crew_base_by_crew(alloc, conn, crew)),
        Search::Outside(id) => in_order(alloc, outside_by_id(alloc, conn, id)),
        Search::OutsidesBy(crew) => in_order(alloc, outsides_by_crew(alloc, conn, crew)),
        Search::SegmentsOf(id) => in_order(alloc, outside_segments_of(alloc, conn, id)),
    }
}

const ALL: [Search; 8] = [
    Search::Bases,
    Search::BaseOf("C1"),
    Search::BaseOf("C2"),
    Search::BaseOf("C3"),
    Search::Outside("X1"),
    Search::OutsidesBy("C1"),
    Search::SegmentsOf("X1"),
    Search::SegmentsOf("X2"),
];

/// What is reported of these changes, and of the records that are found then.
fn report_of<S: Alter>(
    alloc: Global,
    conn: &mut Connection<S>,
    changes: &[Change],
) -> Result<String, Fault> {
    for change in changes {
        make(alloc, conn, *change)?;
    }
    let mut text = String::new(alloc);
    for &search in &ALL {
        text.push_str(records_of(alloc, conn, search)?.as_str())?;
    }
    Ok(text)
}

fn report_over<S: Alter + Drop>(alloc: Global, mut conn: Connection<S>) -> Result<String, Fault> {
    make_tables(alloc, &mut conn)?;
    conn.execute_batch("INSERT INTO base VALUES ('DEN', 'MST7MDT,M3.2.0,M11.1.0')")?;
    conn.execute_batch("INSERT INTO crew_base VALUES ('C1', 'HOME'), ('C2', 'DEN')")?;
    let added = [
        Change::Outside("X1", "C1", 100, 700),
        Change::Outside("X2", "C1", 800, 900),
        Change::Outside("X3", "C2", 100, 700),
        Change::Segment("X1", 1, 110, 300),
        Change::Segment("X1", 2, 310, 690),
        Change::Segment("X2", 1, 810, 890),
    ];
    let mut text = report_of(alloc, &mut conn, &added)?;
    text.push_str("then\n")?;
    let removed = [Change::NoOutside("X1"), Change::NoSegmentsOf("X1")];
    text.push_str(report_of(alloc, &mut conn, &removed)?.as_str())?;
    Ok(text)
}

#[test]
fn outside_periods_are_added_found_and_removed(rt: HostRuntime) -> Result<(), Fail> {
    let conn = Connection::open_in_memory(rt.alloc())?;
    assert_eq!(rt;
        report_over(rt.alloc(), conn)?.as_str(),
        "DEN|MST7MDT,M3.2.0,M11.1.0\nHOME|EST5EDT,M3.2.0,M11.1.0\nC1|HOME\nC2|DEN\nnone\n\
        X1|C1|100|700\nX1|C1|100|700\nX2|C1|800|900\n\
        X1|1|110|300\nX1|2|310|690\nX2|1|810|890\n\
        then\n\
        DEN|MST7MDT,M3.2.0,M11.1.0\nHOME|EST5EDT,M3.2.0,M11.1.0\nC1|HOME\nC2|DEN\nnone\n\
        none\nX2|C1|800|900\n\
        none\nX2|1|810|890\n"
    );
    Ok(())
}
