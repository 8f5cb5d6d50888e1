// A drain leaves each call in agreement; nothing runs.
ghost use Rattle.event_cases.specs.DrainedCalls.Laws.{HeldCallsAgree};

/// After a drain each call of the channel agrees with the session, where its buffer holds what the session has and what came of its response is as before.
pub fn drains_keep_calls()
    ensures { HeldCallsAgree }
{}
