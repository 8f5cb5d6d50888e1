// What a drain takes of the messages of calls; nothing runs.
ghost use Rattle.channel_actions.specs.DrainCalls.Laws.{FeedsHold};

/// Where of each attempt that goes on the bytes are left that the session did not write, the buffer of a call holds of its messages what the session has.
pub fn feeds_hold()
    ensures { FeedsHold }
{}
