//! The text of what is told of many requests, in JSON.
//! What clients are answered: `tests/lines_http.py`. Wrong bodies: `must-fail-more/`.
ghost use Rattle.std.specs.Prelude.{◌≡◌, ◌++◌, false, IfOk, codes, string_bytes};
ghost use Rattle.asking.specs.Lines as spec;

use std::alloc::Global;
use values::MemoryFault;

/// The text, as far as requests are told of.
#[derive(Drop)]
pub(crate) struct AnswersText {
    text: String,
    has_some: bool,
}

impl AnswersText {
    /// Begins the text, before any request is told of.
    pub(crate) fn begin(alloc: Global) -> Result<AnswersText, MemoryFault>
        ensures { IfOk result (λ answers. (string_bytes answers.text ≡ codes "{\"answers\":[")
            × (answers.has_some ≡ false)) }
    {
        let text = String::from_str(alloc, "{\"answers\":[")?;
        Ok(AnswersText {
            text,
            has_some: false,
        })
    }

    /// Tells of one more request.
    pub(crate) fn add(&mut self, answer: &str) -> Result<(), MemoryFault>
        ensures { IfOk result (λ _. spec.IsToldAlso self.old self.new answer.now) }
    {
        if self.has_some {
            self.text.push_str(",")?;
        }
        self.has_some = true;
        self.text.push_str(answer)?;
        Ok(())
    }

    /// Ends the text, when all requests are told of.
    pub(crate) fn end(self) -> Result<String, MemoryFault>
        ensures { IfOk result
            (λ text. string_bytes text ≡ string_bytes self.text ++ codes "]}") }
    {
        let mut text = self.text;
        text.push_str("]}")?;
        Ok(text)
    }
}
