//! What is reported where a transaction is taken back, as after out of memory.

mod shutting;

use crate::undoing::shutting::shutting_behind;
use sqlite::{Alter, Connection};
use state_rows::StoreFault;
use std::alloc::Global;
use std::test::Fail;
use writing::take_back;

/// What is reported of a transaction that is begun and has one savepoint, where the store shuts behind this many of them.
fn report_behind(alloc: Global, savepoints: u64) -> Option<Result<(), StoreFault>> {
    let mut conn = shutting_behind(alloc, savepoints)?;
    begin(&mut conn)?;
    Some(take_back(&mut conn))
}

fn begin<S: Alter>(conn: &mut Connection<S>) -> Option<()> {
    conn.execute("BEGIN", &[]).ok()?;
    conn.execute("SAVEPOINT one", &[]).ok()?;
    Some(())
}

#[test]
fn a_rollback_that_is_refused_is_reported_as_90(rt: HostRuntime) -> Result<(), Fail> {
    assert!(rt; report_behind(rt.alloc(), 2) == Some(Ok(())));
    assert!(rt; report_behind(rt.alloc(), 1) == Some(Err(StoreFault::Store)));
    Ok(())
}
