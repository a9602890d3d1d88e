//! What the columns of a row of `request` are read as: a key, a command and a reply.
//! Through the program: `tests/answers.py`. Wrong bodies: `must-fail-more/`.

ghost use Rattle.std.specs.Prelude.{◌≡◌, pos, IfOk, IsUtf8, MatchOption};
ghost use Rattle.command.specs.Keys.{KeyParts};
ghost use Rattle.command.specs.declared.exceedance.Reply as spec_reply;
ghost use Rattle.command.specs.declared.instruction.Instruction as spec_instruction;
ghost use Rattle.stored_json.specs.KeptText.{kept_text};
ghost use Rattle.stored_json.specs.Laws.{IsCommand};
ghost use Rattle.stored_json.specs.ReplyText.{reply_text};
ghost use Rattle.entries.specs.Right.{IsKey};

use command::{Command, Key, Reply};
use request::RequestNumber;
use std::alloc::Global;
use stored_json::{CodecFault, canonical, read_canonical, read_reply, reply_to_json};
use values::{MemoryFault, Sequence};

/// Returns the key of these numbers, if they are in its ranges.
pub fn key_of(number: i64, part: u32) -> Option<Key>
    ensures { MatchOption result
        ((key : KeyParts) → IsKey key → number ≡ pos key.number → part ≡ key.part → ⊥)
        (λ key. IsKey key × (number ≡ pos key.number) × (part ≡ key.part)) }
{
    let number = RequestNumber::new(u64::try_from(number).ok()?)?;
    let part = u16::try_from(part).ok()?;
    if part > 10_000 {
        return None;
    }
    Some(Key::new(number, part))
}

/// Reads the command of which this is the kept text, if it is one's.
#[tactic(auto, using(crate::proofs::KeptTexts::not_kept, crate::proofs::KeptTexts::kept_otherwise))]
pub fn command_of(alloc: Global, text: &str) -> Result<Option<Command>, MemoryFault>
    ensures { IfOk result (λ it. MatchOption it
        ((instruction : spec_instruction.Instruction) → IsCommand instruction
        → kept_text instruction ≡ text.now → ⊥)
        (λ instruction. IsCommand instruction
        × (kept_text instruction ≡ text.now) × IsUtf8 text.now)) }
{
    let command = match read_canonical(alloc, text) {
        Ok(command) => command,
        Err(CodecFault::Memory) => return Err(MemoryFault),
        Err(_) => return Ok(None),
    };
    let kept = canonical(alloc, &command)?;
    if kept.as_str() == text {
        Ok(Some(command))
    } else {
        Ok(None)
    }
}

/// The text of a reply without an exceedance, as that of nearly every command is.
const WITHOUT_EXCEEDANCE: &str = "{\"exceedances\":[],\"result\":\"accepted\"}";

/// Reads the reply of which this is the text, if it is one's.
#[tactic(auto, using(crate::proofs::KeptTexts::not_reply, crate::proofs::KeptTexts::told_otherwise, crate::proofs::KeptTexts::without_exceedance))]
pub fn reply_of(alloc: Global, text: &str) -> Result<Option<Reply>, MemoryFault>
    ensures { IfOk result (λ it. MatchOption it
        ((reply : spec_reply.Reply) → reply_text reply ≡ text.now → ⊥)
        (λ reply. (reply_text reply ≡ text.now) × IsUtf8 text.now)) }
{
    if text == WITHOUT_EXCEEDANCE {
        return Ok(Some(Reply {
            exceedances: Sequence::new(Vec::new(alloc)),
        }));
    }
    let reply = match read_reply(alloc, text) {
        Ok(reply) => reply,
        Err(CodecFault::Memory) => return Err(MemoryFault),
        Err(_) => return Ok(None),
    };
    let kept = reply_to_json(alloc, &reply)?;
    if kept.as_str() != text {
        return Ok(None);
    }
    Ok(Some(reply))
}
