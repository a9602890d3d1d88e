//! What holds of every kept text. Each of these functions does nothing; its clause is a law.
ghost use Rattle.stored_json.specs.Laws.{KeptTextsAreRead, KeptTextsDiffer, ReplyTextsAreRead};

/// The kept text of a command is read as it.
pub fn kept_texts_are_read()
    ensures { KeptTextsAreRead }
{}

/// Commands with one kept text are the same.
pub fn kept_texts_differ()
    ensures { KeptTextsDiffer }
{}

/// The text of a reply is read as it.
pub fn reply_texts_are_read()
    ensures { ReplyTextsAreRead }
{}
