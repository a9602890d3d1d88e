//! What holds of every input. Each of these functions does nothing; its clause is a law.
ghost use Rattle.web.specs.Laws.{EachInputHasResponse, HasOneResponse};

/// In a state of the book an input has one response at most: its bytes, the commands that are done, and what is left unread.
pub fn input_has_one_response()
    ensures { HasOneResponse }
{}

/// In a sound state, as each state of a book is, each input that isn't empty has a response.
pub fn each_input_has_response()
    ensures { EachInputHasResponse }
{}
