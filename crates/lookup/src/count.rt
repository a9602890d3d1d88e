//! How many requests are kept, and which number is free for the next.
//! Through the program: `tests/reports.py`. Wrong bodies: `must-fail-more/`.

ghost use Rattle.std.specs.Prelude.{◌≡◌, IfErr, IfOk};
ghost use Rattle.sqlite.specs.Held.{state};
ghost use Rattle.state_rows.specs.Outcomes.{IsOutside, IsOverBook};
ghost use Rattle.lookup.specs.Count.{IsNumberAfter, IsCount, IsCountOf, ReadsTally};
ghost use Rattle.lookup.specs.Reads.{HaveNone, ReadsByKey};

use request::RequestNumber;
use sqlite::{Alter, Connection};
use state_rows::StoreFault;
use std::alloc::Global;
use tables::request::{RequestTally, tally_requests};

/// How many requests are kept, and which number is free for the next.
#[derive(Clone, Copy, Debug, PartialEq, Eq, Drop)]
pub struct RequestCount {
    /// How many keys hold a command.
    pub kept: u64,
    /// The lowest number that is above the numbers of all of them, if a request may have it.
    pub next: Option<RequestNumber>,
}

/// Counts the records.
#[tactic(auto, using(crate::proofs::CountLemmas::was_counted, crate::proofs::CountLemmas::not_counted, crate::proofs::ReadLemmas::holds_open))]
fn request_tally<S: Alter>(
    alloc: Global,
    conn: &mut Connection<S>,
) -> Result<RequestTally, StoreFault>
    requires outside { IsOutside (state S.Store conn.old) }
    requires over { IsOverBook (state S.Store conn.old) }
    ensures { ReadsTally (state S.Store conn.old) (state S.Store conn.new) result }
{
    // The clause of this call says that outside a transaction what is shown is committed.
    let _settled = conn.is_autocommit();
    match tally_requests(alloc, conn) {
        Ok(tally) => Ok(tally),
        Err(fault) => Err(StoreFault::from(fault)),
    }
}

/// Returns the number after the highest that is kept, if a request may have it.
fn next_after(highest: Option<i64>) -> Result<Option<RequestNumber>, StoreFault>
    ensures told { IfOk result (IsNumberAfter highest) }
    ensures unread { IfErr result
        (λ fault. fault ≡ StoreFault.Store → HaveNone (IsNumberAfter highest)) }
{
    let Some(highest) = highest else {
        return Ok(Some(RequestNumber::FIRST));
    };
    match u64::try_from(highest) {
        Ok(last) => Ok(RequestNumber::new(last + 1)),
        Err(_) => Err(StoreFault::Store),
    }
}

/// Returns what a tally says of the next request.
fn count_of(tally: &RequestTally) -> Result<RequestCount, StoreFault>
    ensures told { IfOk result (IsCountOf tally.now) }
    ensures unread { IfErr result
        (λ fault. fault ≡ StoreFault.Store → HaveNone (IsCountOf tally.now)) }
{
    let next = next_after(tally.highest)?;
    Ok(RequestCount {
        kept: tally.kept,
        next,
    })
}

/// Reads how many requests are kept, and which number is free for the next. No command is read.
#[tactic(auto, using(crate::proofs::Causes::not_told))]
pub fn count_at<S: Alter>(
    alloc: Global,
    conn: &mut Connection<S>,
) -> Result<RequestCount, StoreFault>
    requires outside { IsOutside (state S.Store conn.old) }
    requires over { IsOverBook (state S.Store conn.old) }
    ensures { ReadsByKey IsCount (state S.Store conn.old) (state S.Store conn.new) result }
{
    let tally = request_tally(alloc, conn)?;
    count_of(&tally)
}
