//! What a request is answered: of which kind, and its text in JSON.
//! Answers of `do`: `tests/answers.py`; of the server: `tests/exchanges.py`. Wrong bodies: `must-fail-more/`.
ghost use Rattle.std.specs.Prelude.{◌≡◌};
ghost use Rattle.asking.specs.Answers as spec;

use book::{Answer, BookFault};
use codec::{CodecFault, fault_to_json, refusal_to_json, reply_to_json};
use command::Refusal;
use std::alloc::{AllocError, Global};
use values::MemoryFault;

/// Of which kind an answer is.
#[derive(Clone, Copy, Debug, PartialEq, Eq)]
pub enum AnswerKind {
    /// The command is done.
    Accepted,
    /// The command conflicts with what the book holds (1 to 15, 20 to 22).
    Refused,
    /// It is refused whatever the book holds (19), or isn't read (16 to 19, 31).
    Unfit,
}

/// What a request is answered, in JSON.
#[derive(Drop)]
pub struct JsonAnswer {
    /// Of which kind the answer is.
    pub kind: AnswerKind,
    /// The text, which is one object of JSON.
    pub text: String,
}

/// Why there is no answer.
#[derive(Clone, Copy, Debug, PartialEq, Eq)]
pub enum AskFault {
    /// The book met a fault: of its store (90), or out of memory (91).
    Book(BookFault),
    /// There is no memory beside the book (91): what is asked wasn't read, or it was answered and the answer has no text.
    Memory,
}

impl From<MemoryFault> for AskFault {
    ghost use Rattle.std.specs.Prelude.{◌≡◌};
    ghost use Rattle.asking.specs.declared.answers.AskFault.TheVariants.{Memory};

    ghost from_gives = { λ _ fault. fault ≡ Memory };

    fn from(_fault: MemoryFault) -> AskFault {
        AskFault::Memory
    }
}

impl From<AllocError> for AskFault {
    ghost use Rattle.std.specs.Prelude.{◌≡◌};
    ghost use Rattle.asking.specs.declared.answers.AskFault.TheVariants.{Memory};

    ghost from_gives = { λ _ fault. fault ≡ Memory };

    fn from(_error: AllocError) -> AskFault {
        AskFault::Memory
    }
}

/// Reports what a book answered.
pub(crate) fn report_answer(
    alloc: Global,
    answer: Result<Answer, BookFault>,
) -> Result<JsonAnswer, AskFault>
    ensures { spec.Reports answer result }
{
    match answer {
        Ok(Answer::Accepted(reply)) => {
            in_json(AnswerKind::Accepted, reply_to_json(alloc, &reply))
        }
        Ok(Answer::Refused(refusal)) => {
            in_json(kind_of(&refusal), refusal_to_json(alloc, &refusal))
        }
        Err(fault) => Err(AskFault::Book(fault)),
    }
}

/// Reports why a request isn't read.
pub(crate) fn refuse_unread(alloc: Global, fault: CodecFault) -> Result<JsonAnswer, AskFault>
    ensures { spec.ReportsUnread fault result }
{
    in_json(AnswerKind::Unfit, fault_to_json(alloc, fault))
}

/// Makes an answer of this kind, if there was memory for its text.
fn in_json(kind: AnswerKind, text: Result<String, MemoryFault>) -> Result<JsonAnswer, AskFault>
    ensures { spec.IsInJson kind text result }
{
    match text {
        Ok(text) => Ok(JsonAnswer { kind, text }),
        Err(_) => Err(AskFault::Memory),
    }
}

/// Returns of which kind a refusal of the book is.
fn kind_of(refusal: &Refusal) -> AnswerKind
    ensures { result ≡ spec.refusal_kind refusal.now }
{
    match refusal {
        Refusal::SegmentCount(_) => AnswerKind::Unfit,
        _ => AnswerKind::Refused,
    }
}
