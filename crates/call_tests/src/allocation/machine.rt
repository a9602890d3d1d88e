//! Commands that a roster is asked, and makes.

ghost use Rattle.std.specs.Prelude.{◌≡◌, IfOk, None};
ghost use Rattle.std.specs.FinMap as fin;
ghost use Rattle.command.specs.Keys.{key_name};
ghost use Rattle.roster.specs.Steps.{IsUnderFreeKey};

use crate::allocation::reports::MemoryReports;
use crate::allocation::same::{are_rosters_same, is_base_same};
use crate::fault::Fault;
use crate::requests::{REQUESTS, eastern, requests};
use command::{Command, Key};
use roster::{Change, Roster, Verdict};
use std::alloc::Global;
use values::MemoryFault;

/// A roster with nothing but the base `HOME`.
pub fn empty(alloc: Global) -> Result<Roster, Fault> {
    Ok(Roster::empty(alloc, eastern(alloc)?)?)
}

/// The verdict on a command, asked for twice where there is no memory.
fn verdict_on(
    alloc: Global,
    reports: &mut MemoryReports,
    roster: &Roster,
    key: Key,
    command: &Command,
) -> Result<Verdict, MemoryFault>
    ensures { IfOk result (λ verdict. IsUnderFreeKey roster.now verdict) }
{
    match roster.step(alloc, key, command) {
        Ok(verdict) => Ok(verdict),
        Err(_) => {
            reports.memory = true;
            roster.step(alloc, key, command)
        }
    }
}

/// Makes a change in a roster, which has to be as the other one until it is made.
fn change(
    alloc: Global,
    reports: &mut MemoryReports,
    roster: &mut Roster,
    other: &Roster,
    change: &Change,
) -> Result<(), Fault>
    requires { fin.get roster.old.requests (key_name change.now.key) ≡ None }
{
    if roster.apply(alloc, change).is_err() {
        reports.memory = true;
        if !are_rosters_same(roster, other) || !is_base_same(roster, other, &change.command) {
            return Err(Fault::Changed);
        }
        roster.apply(alloc, change)?;
    }
    Ok(())
}

/// Makes what is accepted.
fn make(
    alloc: Global,
    reports: &mut MemoryReports,
    roster: &mut Roster,
    other: &Roster,
    verdict: &Verdict,
) -> Result<(), Fault>
    requires { IsUnderFreeKey roster.old verdict.now }
{
    match verdict {
        Verdict::Accept(accepted, _reply) => change(alloc, reports, roster, other, accepted),
        Verdict::Repeat(_) | Verdict::Refuse(_) => Ok(()),
    }
}

/// Makes what is accepted, with no second try.
fn make_once(alloc: Global, roster: &mut Roster, verdict: &Verdict) -> Result<(), MemoryFault>
    requires { IsUnderFreeKey roster.old verdict.now }
{
    match verdict {
        Verdict::Accept(change, _reply) => roster.apply(alloc, change),
        Verdict::Repeat(_) | Verdict::Refuse(_) => Ok(()),
    }
}

/// Has a roster answer a command, with no second try.
fn follow(
    alloc: Global,
    roster: &mut Roster,
    key: Key,
    command: &Command,
) -> Result<(), MemoryFault> {
    let verdict = roster.step(alloc, key, command)?;
    let made = make_once(alloc, roster, &verdict);
    drop(verdict);
    made
}

/// A mark for a verdict: `+` where it accepts, `=` where it repeats, or else the number of the refusal.
fn mark(alloc: Global, verdict: &Verdict, marks: &mut String) -> Result<(), Fault> {
    match verdict {
        Verdict::Accept(_, _) => marks.push_str("+")?,
        Verdict::Repeat(_) => marks.push_str("=")?,
        Verdict::Refuse(refusal) => {
            let number = format!(in alloc; " {}", refusal.number())?;
            marks.push_str(number.as_str())?;
        }
    }
    Ok(())
}

/// Marks a verdict, and makes what is accepted.
fn answer(
    alloc: Global,
    reports: &mut MemoryReports,
    roster: &mut Roster,
    other: &Roster,
    verdict: &Verdict,
    marks: &mut String,
) -> Result<(), Fault>
    requires { IsUnderFreeKey roster.old verdict.now }
{
    mark(alloc, verdict, marks)?;
    make(alloc, reports, roster, other, verdict)
}

/// Asks a command of a roster, and then of the other one, which follows it.
fn ask(
    alloc: Global,
    reports: &mut MemoryReports,
    roster: &mut Roster,
    other: &mut Roster,
    (key, command): &(Key, Command),
    marks: &mut String,
) -> Result<(), Fault> {
    let verdict = verdict_on(alloc, reports, roster, *key, command)?;
    let answered = answer(alloc, reports, roster, other, &verdict, marks);
    drop(verdict);
    answered?;
    Ok(follow(alloc, other, *key, command)?)
}

fn ask_all(
    alloc: Global,
    reports: &mut MemoryReports,
    roster: &mut Roster,
    other: &mut Roster,
    requests: &[(Key, Command)],
) -> Result<String, Fault> {
    let mut marks = String::new(alloc);
    for request in requests {
        ask(alloc, reports, roster, other, request, &mut marks)?;
    }
    if are_rosters_same(roster, other) {
        Ok(marks)
    } else {
        Err(Fault::Otherwise)
    }
}

/// Asks a roster, which a new one follows.
fn ask_with(
    alloc: Global,
    reports: &mut MemoryReports,
    roster: &mut Roster,
    requests: &[(Key, Command)],
) -> Result<String, Fault> {
    let mut other = empty(alloc)?;
    let marks = ask_all(alloc, reports, roster, &mut other, requests);
    drop(other);
    marks
}

/// Has a new roster answer all requests.
pub fn step(alloc: Global, reports: &mut MemoryReports) -> Result<String, Fault> {
    let requests = requests(alloc, &REQUESTS)?;
    let mut roster = empty(alloc)?;
    let marks = ask_with(alloc, reports, &mut roster, &requests);
    drop(roster);
    marks
}

fn follow_all(
    alloc: Global,
    roster: &mut Roster,
    requests: &[(Key, Command)],
) -> Result<(), MemoryFault> {
    for (key, command) in requests {
        follow(alloc, roster, *key, command)?;
    }
    Ok(())
}

/// The state that requests leave, with no second try.
fn state(alloc: Global, requests: &[(Key, Command)]) -> Result<Roster, Fault> {
    let mut roster = empty(alloc)?;
    match follow_all(alloc, &mut roster, requests) {
        Ok(()) => Ok(roster),
        Err(_) => {
            drop(roster);
            Err(Fault::Memory)
        }
    }
}

/// The state that all requests leave.
pub fn last_state(alloc: Global) -> Result<Roster, Fault> {
    state(alloc, &requests(alloc, &REQUESTS)?)
}
