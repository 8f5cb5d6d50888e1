// The end of an attempt by a failed pick; nothing runs.
ghost use Rattle.attempt_cases.specs.ServeSteps.Follows.{FailsFollow};

/// Where its pick fails, its end is followed: what its call does then is alike in channel and session, streams are reset, and the pass goes on after it (gRPC, "Load
/// Balancing in gRPC"; "gRPC Wait for Ready Semantics"; gRFC A6, "Retry Policy" and "Hedging Policy").
pub fn fails_follow()
    ensures { FailsFollow }
{}
