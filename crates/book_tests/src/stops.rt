//! Stops at each call of one of the two files: while a book is made and asked commands, of which three are the parts of an import, and
//! while it is opened and taken up, in files of version 2 and of version 1. The files are opened again over what the stop left, and all
//! commands are handed in again.

pub mod disk;
pub mod run;
pub mod states;

use crate::stops::disk::{Left, Stopped, Stops, after_restart, taking, with_limit};
use crate::stops::run::{
    Again, Asking, HandedInAgain, Lowering, Reached, Taken, TakingUp, with_opened,
};
use crate::stops::states::{COMMANDS, FIRST, first, states};
use sqlite::Files;
use sqlite_disk::{Fuse, Memory};
use std::alloc::Global;
use std::test::Fail;

/// The place among the states of what a run came to.
fn place(reached: Option<Reached>) -> Result<usize, Fail> {
    match reached {
        None | Some(Reached::NoBook) => Ok(0),
        Some(Reached::Answered(count)) => Ok(count.saturating_add(1)),
        Some(Reached::OtherwiseReported) => Err(Fail::from("a stop that is not reported as 90")),
    }
}

/// Whether files hold what a run that came so far may leave: after its end its last state, and before it the state that
/// it came to, or the next.
fn is_left(held: &str, states: &[String], place: usize, is_whole: bool) -> bool {
    let mut allowed = states.iter().skip(place).take(if is_whole { 1 } else { 2 });
    allowed.any(|state| state.as_str() == held)
}

/// Fails unless all commands, handed in again, are answered as those of a run that never stopped, and leave what it leaves.
fn ends_as_always(states: &[String], is_answered: bool, ended: &str) -> Result<(), Fail> {
    let is_same = states.last().is_some_and(|state| state.as_str() == ended);
    if is_answered && is_same {
        Ok(())
    } else {
        Err(Fail::from("another end than that of a run that never stopped"))
    }
}

/// Fails unless files hold what a run that came so far may leave, and all commands, handed in again, end as always.
fn check_states(
    states: &[String],
    again: Option<Again>,
    place: usize,
    is_whole: bool,
) -> Result<(), Fail> {
    let Some(
        Again {
            held,
            is_answered,
            ended,
        },
    ) = again
    else {
        return Err(Fail::from("files that don't open again"));
    };
    if !is_left(held?.as_str(), states, place, is_whole) {
        return Err(Fail::from("what no stop may leave"));
    }
    ends_as_always(states, is_answered, ended?.as_str())
}

/// Stops a run of the first commands at each call from this one on, up to the first run that has no stop; how many calls that
/// one makes.
fn calls_of<D: Stops>(
    alloc: Global,
    states: &[String],
    (stopped, left): (Stopped, Left),
    count: usize,
    first: u64,
) -> Result<u64, Fail> {
    let whole = count.saturating_add(1);
    for calls in first..first.saturating_add(2_000) {
        let (reached, files) = with_opened(
            alloc,
            taking::<D>(alloc, stopped, calls),
            Asking { count },
        );
        let place = place(reached)?;
        let (again, files) = with_opened(alloc, after_restart(alloc, files, left), HandedInAgain);
        drop(files);
        check_states(states, again, place, place == whole)?;
        if place == whole {
            return Ok(calls);
        }
    }
    Err(Fail::from("no run came to its end"))
}

/// Stops a run at each call: of a book that is asked nothing, and then of each command. How many calls the longest run makes.
fn stop<D: Stops>(alloc: Global, stopped: Stopped, left: Left) -> Result<u64, Fail> {
    let states = states(alloc)?;
    let mut calls = 0;
    for count in 0..=COMMANDS {
        calls = calls_of::<D>(alloc, states.as_slice(), (stopped, left), count, calls)?;
    }
    Ok(calls)
}

/// Stops the opening of a whole book, and its taking up, at each call of a file, up to the first that has no stop; then it is opened
/// once more, and is the same book. How many calls there are.
fn stop_opening<D: Stops>(alloc: Global, stopped: Stopped) -> Result<u64, Fail> {
    let states = states(alloc)?;
    let new = taking::<D>(alloc, stopped, u64::MAX);
    let (reached, whole) = with_opened(alloc, new, Asking { count: COMMANDS });
    let place = place(reached)?;
    for calls in 0..2_000 {
        let (taken, files) = with_opened(
            alloc,
            with_limit(alloc, &whole, stopped, calls),
            TakingUp,
        );
        if taken == Some(Taken::Otherwise) {
            return Err(Fail::from("a stop that is reported otherwise"));
        }
        let (again, files) = with_opened(
            alloc,
            after_restart(alloc, files, Left::Written),
            HandedInAgain,
        );
        drop(files);
        check_states(states.as_slice(), again, place, true)?;
        if taken == Some(Taken::Up) {
            return Ok(calls);
        }
    }
    Err(Fail::from("no book was taken up"))
}

/// The same over files in memory.
fn in_memory(rt: &HostRuntime, stopped: Stopped, left: Left) -> Result<u64, Fail> {
    stop::<Fuse<Memory>>(rt.alloc(), stopped, left)
}

#[test]
fn each_call_of_the_log(rt: HostRuntime) -> Result<(), Fail> {
    assert!(rt; in_memory(&rt, Stopped::Log, Left::Written)? > 40);
    Ok(())
}

#[test]
fn each_call_of_the_log_before_a_sync(rt: HostRuntime) -> Result<(), Fail> {
    assert!(rt; in_memory(&rt, Stopped::Log, Left::Synced)? > 40);
    Ok(())
}

#[test]
fn each_call_of_the_database(rt: HostRuntime) -> Result<(), Fail> {
    assert!(rt; in_memory(&rt, Stopped::Database, Left::Written)? > 0);
    assert!(rt; in_memory(&rt, Stopped::Database, Left::Synced)? > 0);
    Ok(())
}

#[test]
fn each_call_while_a_book_is_opened(rt: HostRuntime) -> Result<(), Fail> {
    let alloc = rt.alloc();
    assert!(rt; stop_opening::<Fuse<Memory>>(alloc, Stopped::Log)? > 0);
    assert!(rt; stop_opening::<Fuse<Memory>>(alloc, Stopped::Database)? > 0);
    Ok(())
}

/// Whether files hold a whole book in version 1, whose rows these are, and not in version 2. Fails unless it is one of them, and all
/// commands, handed in again, end as always.
fn is_in_first(first: &str, states: &[String], again: Option<Again>) -> Result<bool, Fail> {
    let Some(
        Again {
            held,
            is_answered,
            ended,
        },
    ) = again
    else {
        return Err(Fail::from("files that don't open again"));
    };
    let held = held?;
    let is_in_first = held.as_str() == first;
    if !is_in_first && !is_left(held.as_str(), states, FIRST.saturating_add(1), true) {
        return Err(Fail::from("what no stop may leave"));
    }
    ends_as_always(states, is_answered, ended?.as_str())?;
    Ok(is_in_first)
}

/// Stops the opening of a copy of files with a whole book of version 1, and its taking up, at this call of one of them. Whether it is taken
/// up all the same, and whether it is in version 1 then.
fn stop_migration_at<D: Stops>(
    alloc: Global,
    files: &Files<D>,
    (stopped, left): (Stopped, Left),
    calls: u64,
    (first, states): (&str, &[String]),
) -> Result<(bool, bool), Fail> {
    let (taken, files) = with_opened(alloc, with_limit(alloc, files, stopped, calls), TakingUp);
    if taken == Some(Taken::Otherwise) {
        return Err(Fail::from("a stop that is reported otherwise"));
    }
    let (again, files) = with_opened(alloc, after_restart(alloc, files, left), HandedInAgain);
    drop(files);
    let is_up = taken == Some(Taken::Up);
    Ok((is_up, is_in_first(first, states, again)?))
}

/// Stops the opening of a whole book of version 1, and its taking up, at each call of a file, up to the first that has no stop. How many
/// stops leave the book in version 1, and how many in version 2.
fn stop_migration<D: Stops>(
    alloc: Global,
    stopped: Stopped,
    left: Left,
) -> Result<(u64, u64), Fail> {
    let (first, states) = (first(alloc)?, states(alloc)?);
    let wanted = (first.as_str(), states.as_slice());
    let (lowered, files) = with_opened(alloc, taking::<D>(alloc, stopped, u64::MAX), Lowering);
    if lowered != Some(true) {
        return Err(Fail::from("no book of version 1"));
    }
    let (mut in_first, mut in_second) = (0u64, 0u64);
    for calls in 0..2_000 {
        match stop_migration_at(alloc, &files, (stopped, left), calls, wanted)? {
            (false, true) => in_first = in_first.saturating_add(1),
            (false, false) => in_second = in_second.saturating_add(1),
            (true, false) => return Ok((in_first, in_second)),
            (true, true) => return Err(Fail::from("a book that was taken up in version 1")),
        }
    }
    Err(Fail::from("no book was taken up"))
}

/// The same over files in memory.
fn migration_in_memory(rt: &HostRuntime, stopped: Stopped, left: Left) -> Result<(u64, u64), Fail> {
    stop_migration::<Fuse<Memory>>(rt.alloc(), stopped, left)
}

#[test]
fn each_call_of_the_log_in_a_migration(rt: HostRuntime) -> Result<(), Fail> {
    let (in_first, in_second) = migration_in_memory(&rt, Stopped::Log, Left::Written)?;
    assert!(rt; in_first > 20 && in_second > 0);
    Ok(())
}

#[test]
fn each_call_of_the_log_before_a_sync_in_a_migration(rt: HostRuntime) -> Result<(), Fail> {
    let (in_first, in_second) = migration_in_memory(&rt, Stopped::Log, Left::Synced)?;
    assert!(rt; in_first > 20 && in_second == 0);
    Ok(())
}

#[test]
fn each_call_of_the_database_in_a_migration(rt: HostRuntime) -> Result<(), Fail> {
    let (in_first, _) = migration_in_memory(&rt, Stopped::Database, Left::Written)?;
    assert!(rt; in_first > 0);
    let (in_first, _) = migration_in_memory(&rt, Stopped::Database, Left::Synced)?;
    assert!(rt; in_first > 0);
    Ok(())
}
