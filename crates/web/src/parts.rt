//! The parts of an import in JSON.
//! What clients are answered: `tests/exchanges.py`. Wrong bodies: `must-fail-more/`.
ghost use Rattle.std.specs.Prelude.{◌≡◌, ◌++◌, IfOk, codes, string_bytes};
ghost use Rattle.book.specs.Kept.{result_of};
ghost use Rattle.asking.specs.Answers.{answer_json};

use asking::Listener;
use book::Answer;
use codec::{refusal_to_json, reply_to_json};
use std::alloc::Global;
use values::MemoryFault;

/// The text of an import's answer, as far as its parts are answered.
#[derive(Drop)]
pub(crate) struct PartsText {
    text: String,
}

impl PartsText {
    /// Begins the text, before any part is answered.
    pub(crate) fn begin(alloc: Global) -> Result<PartsText, MemoryFault>
        ensures { IfOk result (λ parts. string_bytes parts.text ≡ codes "{\"parts\":[") }
    {
        let text = String::from_str(alloc, "{\"parts\":[")?;
        Ok(PartsText { text })
    }

    /// Ends the text, when all parts are answered.
    pub(crate) fn end(self) -> Result<String, MemoryFault>
        ensures { IfOk result
            (λ text. string_bytes text ≡ string_bytes self.text ++ codes "]}") }
    {
        let mut text = self.text;
        text.push_str("]}")?;
        Ok(text)
    }
}

impl Listener for PartsText {
    ghost use Rattle.web.specs.Handling.{IsPartAdded};

    type Fault = MemoryFault;

    ghost hears = { λ old new part answer result. IsPartAdded old new part answer result };

    fn hear(&mut self, alloc: Global, part: u16, answer: &Answer) -> Result<(), MemoryFault> {
        if part > 1 {
            self.text.push_str(",")?;
        }
        self.text.push_str(&answer_to_json(alloc, answer)?)?;
        Ok(())
    }
}

/// Writes what a command was answered.
fn answer_to_json(alloc: Global, answer: &Answer) -> Result<String, MemoryFault>
    ensures { IfOk result (λ text. string_bytes text ≡ answer_json (result_of answer.now)) }
{
    match answer {
        Answer::Accepted(reply) => reply_to_json(alloc, reply),
        Answer::Refused(refusal) => refusal_to_json(alloc, refusal),
    }
}
