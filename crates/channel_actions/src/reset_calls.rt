// The reset of a stream leaves the call of its attempt; nothing runs.
ghost use Rattle.channel_actions.specs.ResetCalls.Laws.{ResetsLeaveCalls};

/// That the stream of an attempt is reset leaves all that session and channel have of its call, what the session keeps in order of it, and when its next attempt is
/// due (RFC 9113, section 6.4).
pub fn resets_leave_calls()
    ensures { ResetsLeaveCalls }
{}
