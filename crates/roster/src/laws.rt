//! What holds of every book. Each of these functions does nothing; its clause is a law.
ghost use Rattle.roster.specs.Laws.{AcceptedWithinLimits, IsAscending, KeepsHonest, KeepsRecords, KeepsRequests, KeepsSound, ListsBroken, ListsInOrder, MadeByCommands, Repeats, Resumes, StartsSound, StaysHonest, StaysSound};

/// The refusals of each instruction are looked at in the order of their numbers.
pub fn refusals_ascend()
    ensures { IsAscending }
{}

/// An assign, a swap or a ground duty that passes the book's own checks is accepted if and only if it breaks no limit in
/// any window of minutes.
pub fn accepted_within_limits()
    ensures { AcceptedWithinLimits }
{}

/// Of a member's new duties exactly those limits are listed whose rule they break, in the sections' order, each once.
pub fn broken_by_is_rules()
    ensures rules { ListsBroken }
    ensures order { ListsInOrder }
{}

/// An accepted command leaves a sound roster sound.
pub fn keeps_sound()
    ensures { KeepsSound }
{}

/// An accepted command leaves an honest roster honest.
pub fn keeps_honest()
    ensures { KeepsHonest }
{}

/// Commands leave a sound roster sound.
pub fn stays_sound()
    ensures { StaysSound }
{}

/// Commands leave an honest roster honest.
pub fn stays_honest()
    ensures { StaysHonest }
{}

/// An empty roster is sound and honest.
pub fn starts_sound()
    ensures { StartsSound }
{}

/// Every roster that commands made of an empty one is sound and honest.
pub fn made_by_commands()
    ensures { MadeByCommands }
{}

/// An exceedance that was recorded stays.
pub fn keeps_records()
    ensures { KeepsRecords }
{}

/// A key that is held keeps its command and reply.
pub fn keeps_requests()
    ensures { KeepsRequests }
{}

/// A command is answered with a kept reply if and only if its key holds it with that reply.
pub fn repeats()
    ensures { Repeats }
{}

/// An import that is stopped and handed in again ends as if it had never been stopped.
pub fn resumes()
    ensures { Resumes }
{}
