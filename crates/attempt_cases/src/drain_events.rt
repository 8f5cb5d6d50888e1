// A drain of the channel as actions of a session; nothing runs.
ghost use Rattle.attempt_cases.specs.DrainEvents.Laws.{DrainsAreAnswered};

/// A drain of a link that is not gone, with room enough, is answered with the bytes of the frames that the session writes; and channel and session agree after it,
/// where the calls do.
pub fn drains_are_answered()
    ensures { DrainsAreAnswered }
{}
