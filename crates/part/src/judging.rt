//! The verdict on a command by a source of which no more is read than that takes. Its definition is `step_of`
//! (`roster/specs/Steps.antt`); what names decide is `refusals_by_names` (`roster/specs/ByNames.antt`).
//! Through the program: `tests/answers.py`. Wrong bodies: `must-fail-more/`.

ghost use Rattle.std.specs.Prelude.{◌≡◌, IfErr, OnOk, Some};
ghost use Rattle.command.specs.Keys.{KeyParts};
ghost use Rattle.part.specs.Part.{has_histories};
ghost use Rattle.part.specs.Sources.{IsCauseOfGathering, TellsOfState};
ghost use Rattle.roster.specs.State.{State};
ghost use Rattle.roster.specs.Steps.{answered, step_of};

use crate::gathering::{add_named, gather_bases};
use crate::near::add_near;
use crate::source::Source;
use command::{Command, Instruction, Key, Refusal};
use roster::{LoggedCommand, Verdict};
use std::alloc::Global;

/// Answers a command by what its key holds.
fn answer_from_log(kept: LoggedCommand, command: &Command) -> Verdict
    ensures { (s : State) (key : KeyParts) → result ≡ answered s key command.now (Some kept) }
{
    if kept.command == *command {
        Verdict::Repeat(kept.reply)
    } else {
        Verdict::Refuse(Refusal::NumberUsed)
    }
}

/// Returns whether an instruction is judged by histories of members.
fn has_histories(instruction: &Instruction) -> bool
    ensures { result ≡ has_histories instruction.now }
{
    match instruction {
        Instruction::Assign(..)
        | Instruction::Swap(_)
        | Instruction::AddGround(_)
        | Instruction::Actual(..)
        | Instruction::RecordOutside(..) => true,
        Instruction::AddBase(..)
        | Instruction::AddCrew(..)
        | Instruction::AddPairing(_)
        | Instruction::CancelPairing(_)
        | Instruction::Release(..)
        | Instruction::CancelGround(_) => false,
    }
}

/// Judges a command under its key, and reads no more than that takes: first what the key holds, then what the command
/// names, and only if no refusal comes of that, of the members whom it judges, the pairings that its windows reach, the ground
/// duties and the outside periods.
pub fn judge<S: Source>(
    alloc: Global,
    source: &mut S,
    key: Key,
    command: &Command,
) -> Result<Verdict, S::Fault>
    ensures told { TellsOfState S.is_clean S.shows
        (λ s verdict. verdict ≡ step_of s key command.now) source.old source.new result }
    ensures left { S.stays source.old source.new }
    ensures caused { IfErr result
        (IsCauseOfGathering S.fails S.Fault.from_gives source.old source.new) }
    ensures serves { OnOk result (S.serves source.old source.new) }
    ensures there { OnOk result (S.is_there source.new) }
{
    if let Some(kept) = source.request(alloc, key)? {
        return Ok(answer_from_log(kept, command));
    }
    let instruction = command.instruction();
    let mut part = gather_bases(alloc, source)?;
    add_named(alloc, source, instruction, &mut part)?;
    if let Some(refusal) = part.refusal_by_names(instruction) {
        return Ok(Verdict::Refuse(refusal));
    }
    if !has_histories(instruction) {
        return Ok(part.step(alloc, key, command)?);
    }
    add_near(alloc, source, instruction, &mut part)?;
    Ok(part.step(alloc, key, command)?)
}
