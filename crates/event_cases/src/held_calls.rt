// Calls after a drain; nothing runs.
ghost use Rattle.event_cases.specs.HeldCalls.Laws.{KnownCallsAreHeld, KnownDrainsAreAnswered};

/// After a drain of a link that is not over the buffer of each open call holds what the session has, and what came for its application is as before (gRFC A6, "Memory
/// Management (Buffering)").
pub fn known_calls_are_held()
    ensures { KnownCallsAreHeld }
{}

/// So a drain of a link that is not gone is answered with the bytes of the frames that the session writes, and channel and session agree after it (RFC 9113, section 5.1.1).
pub fn known_drains_are_answered()
    ensures { KnownDrainsAreAnswered }
{}
