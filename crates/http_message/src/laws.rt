//! What holds of every input. Each of these functions does nothing; its clause is a law.
ghost use Rattle.http_message.specs.Laws.{HasHeadOrNone, HasOneHead};

/// An input begins with one head at most, after which one rest stands: so what is answered to an input is one response.
pub fn input_has_one_head()
    ensures { HasOneHead }
{}

/// An input begins with a head, or with none: so something is answered to each.
pub fn input_has_head_or_none()
    ensures { HasHeadOrNone }
{}
