// The end of one call; nothing runs.
ghost use Rattle.call_cases.specs.CallEnds.Laws.{OneCallEnds, OneCallEndsAhead};

/// A call that ends, for whatever cause, ends alike in channel and session: its attempts are cut off, their streams are reset, and the two agree again (gRPC, "Core
/// concepts": RPC life cycle, Cancelling an RPC). So it is where the channel has queued resets of streams already that the session queues at the end (RFC 9113, section
/// 6.4).
pub fn calls_end_alike()
    ensures alike { OneCallEnds }
    ensures ahead { OneCallEndsAhead }
{}
