// Calls that are committed; nothing runs.
ghost use Rattle.attempt_cases.specs.CallCommits.Laws.{OneCallCommits, SendsAreAnswered, SendsCommit};

/// Where a call is committed, its other attempts are cut off and their streams are reset, and channel and session agree again; so a Send that commits its call leads
/// there (gRFC A6, "When Retries are Valid", "Hedging Policy" and "Memory Management (Buffering)").
pub fn calls_commit_alike()
    ensures one { OneCallCommits }
    ensures sends { SendsCommit }
{}

/// Every Send of a call that is there is answered alike in channel and session, and both agree after it (gRPC, "Core concepts"; gRFC A6, "Memory Management
/// (Buffering)").
pub fn all_sends_are_answered()
    ensures { SendsAreAnswered }
{}
