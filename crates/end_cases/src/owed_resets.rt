// The resets that a session owes once attempts have ended; nothing runs.
ghost use Rattle.end_cases.specs.AttemptEnds.Laws.{ResetsCatchUp};

/// Once attempts have ended, each stream whose reset is owed is reset, by link and stream, each of these the next action; nothing else follows from them, and
/// channel and session agree again (RFC 9113, section 6.4; gRPC over HTTP/2, "Errors").
pub fn owed_resets_are_made()
    ensures { ResetsCatchUp }
{}
