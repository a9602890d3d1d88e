//! Requests that a new roster is asked in turn, and what it answers.

ghost use Rattle.roster.specs.Steps.{IsUnderFreeKey};

use crate::requests::{
    AT_DENVER, AT_NO_BASE, CANCEL, CAPTAIN, DENVER, ELSEWHERE, ELSEWHERE_OF_C2, G1, G2, LATE, Line,
    OFFICER, OTHER_CAPTAIN, P1, P2, P3, RELEASE, TAKE, TAKE_RIGHT, eastern, key,
};
use command::{Command, Key};
use roster::{Roster, Verdict};
use std::alloc::Global;
use std::test::Fail;
use stored_json::read_canonical;

/// Commands of all eleven kinds, each under a number of its own.
const ACCEPTED: [Line; 23] = [
    (1, CAPTAIN),
    (2, OTHER_CAPTAIN),
    (3, OFFICER),
    (4, P1),
    (5, P2),
    (6, P3),
    (7, TAKE),
    (8, RELEASE),
    (9, CANCEL),
    (10, P1),
    (11, TAKE),
    (12, TAKE_RIGHT),
    (13, "{\"do\":\"assign\",\"pairing\":\"P2\",\"crew\":\"C2\"}"),
    (14, "{\"do\":\"assign\",\"pairing\":\"P2\",\"crew\":\"F1\"}"),
    (
        15,
        "{\"do\":\"swap\",\"pairing\":\"P1\",\"crew\":\"C1\",\"other_pairing\":\"P2\",\"other_crew\":\"C2\"}",
    ),
    (16, G1),
    (17, G2),
    (
        18,
        "{\"do\":\"add-ground\",\"ground\":\"G3\",\"crew\":\"F1\",\"begin\":\"2025-06-22T12:00Z\",\"end\":\"2025-06-22T20:00Z\",\"task\":\"Training\"}",
    ),
    (19, "{\"do\":\"cancel-ground\",\"ground\":\"G3\"}"),
    (20, LATE),
    (21, DENVER),
    (22, AT_DENVER),
    (23, ELSEWHERE),
];

/// One for each refusal of the book, in the order of their numbers.
const REFUSED: [Line; 19] = [
    (1, RELEASE),
    (30, "{\"do\":\"assign\",\"pairing\":\"P3\",\"crew\":\"C9\"}"),
    (30, CAPTAIN),
    (30, "{\"do\":\"assign\",\"pairing\":\"P9\",\"crew\":\"C1\"}"),
    (30, P1),
    (30, "{\"do\":\"assign\",\"pairing\":\"P2\",\"crew\":\"C2\"}"),
    (
        30,
        "{\"do\":\"swap\",\"pairing\":\"P2\",\"crew\":\"C1\",\"other_pairing\":\"P1\",\"other_crew\":\"F1\"}",
    ),
    (30, RELEASE),
    (30, CANCEL),
    (
        30,
        "{\"do\":\"release\",\"pairing\":\"P1\",\"crew\":\"F1\"}",
    ),
    (
        30,
        "{\"do\":\"add-ground\",\"ground\":\"G4\",\"crew\":\"F1\",\"begin\":\"2025-06-11T06:00Z\",\"end\":\"2025-06-11T07:31Z\",\"task\":\"Training\"}",
    ),
    (30, "{\"do\":\"assign\",\"pairing\":\"P3\",\"crew\":\"C2\"}"),
    (
        30,
        "{\"do\":\"actual\",\"pairing\":\"P1\",\"period\":2,\"report\":\"2025-06-10T11:00Z\",\"release\":\"2025-06-11T07:30Z\",\
        \"segments\":[{\"out\":\"2025-06-10T12:00Z\",\"in\":\"2025-06-10T14:00Z\"}]}",
    ),
    (
        30,
        "{\"do\":\"add-ground\",\"ground\":\"G1\",\"crew\":\"C1\",\"begin\":\"2025-06-25T12:00Z\",\"end\":\"2025-06-25T20:00Z\",\"task\":\"Simulator\"}",
    ),
    (30, "{\"do\":\"cancel-ground\",\"ground\":\"G9\"}"),
    (
        30,
        "{\"do\":\"actual\",\"pairing\":\"P1\",\"period\":1,\"report\":\"2025-06-10T11:00Z\",\"release\":\"2025-06-11T07:30Z\",\
        \"segments\":[{\"out\":\"2025-06-10T12:00Z\",\"in\":\"2025-06-10T14:00Z\"}]}",
    ),
    (30, AT_NO_BASE),
    (30, DENVER),
    (30, ELSEWHERE_OF_C2),
];

/// A roster that was asked all requests, and its verdicts in turn.
#[derive(Drop)]
pub struct Played {
    pub roster: Roster,
    pub verdicts: Vec<Verdict>,
}

/// Makes what is accepted.
fn make(alloc: Global, roster: &mut Roster, verdict: &Verdict) -> Result<(), Fail>
    requires { IsUnderFreeKey roster.old verdict.now }
{
    if let Verdict::Accept(change, _reply) = verdict {
        roster.apply(alloc, change)?;
    }
    Ok(())
}

/// The verdict on a command, which is made where it is accepted.
fn verdict_on(
    alloc: Global,
    roster: &mut Roster,
    key: Key,
    command: &Command,
) -> Result<Verdict, Fail> {
    let verdict = roster.step(alloc, key, command)?;
    if let Err(fault) = make(alloc, roster, &verdict) {
        drop(verdict);
        return Err(fault);
    }
    Ok(verdict)
}

fn ask(alloc: Global, played: &mut Played, (number, text): Line) -> Result<(), Fail> {
    let command = read_canonical(alloc, text)?;
    let verdict = verdict_on(alloc, &mut played.roster, key(number), &command);
    drop(command);
    played.verdicts.push(verdict?)?;
    Ok(())
}

fn ask_all(alloc: Global, played: &mut Played, requests: &[Line]) -> Result<(), Fail> {
    for request in requests {
        ask(alloc, played, *request)?;
    }
    Ok(())
}

fn empty(alloc: Global) -> Result<Played, Fail> {
    let roster = Roster::empty(alloc, eastern(alloc)?)?;
    Ok(Played {
        roster,
        verdicts: Vec::new(alloc),
    })
}

/// A roster that was asked those that it accepts, one without exceedances and one with them again, and those that it refuses.
pub fn asked_all(alloc: Global) -> Result<Played, Fail> {
    let mut played = empty(alloc)?;
    ask_all(alloc, &mut played, &ACCEPTED)?;
    ask_all(alloc, &mut played, &[ACCEPTED[0], ACCEPTED[19]])?;
    ask_all(alloc, &mut played, &REFUSED)?;
    Ok(played)
}
