// One attempt that ends; nothing runs.
ghost use Rattle.end_cases.specs.AttemptEnds.Laws.{CallsGoOnAfterEnds, CommittedEndsClose, EndsByCases, EndsByCuts, EndsStayHeld, LastEndsCutOff, LoneLastEndsClose, NoneIsOwed, OneAttemptEnds, RetriesFollowEnds};
ghost use Rattle.end_cases.specs.AttemptEnds.Runs.{RunsOfSessions, RunsStay};

/// An attempt ends, by its pick or by the wire, and its call goes on, since a retry is licensed, or another attempt of the hedged call goes on or is due.
/// Then the end is the next action, nothing follows at once from it but resets, and channel and session agree, with the tokens and the moment of the next attempt
/// (gRFC A6, "Retry Policy", "Hedging Policy", "Exponential Backoff", "Pushback" and "Throttling Retry Attempts and Hedged RPCs").
pub fn calls_go_on_after_ends()
    ensures goes { CallsGoOnAfterEnds }
    ensures unowed { NoneIsOwed }
{}

/// Where the attempt ends to which its call is committed, and no transparent retry follows it, the end of the call is the next action; then nothing follows at once
/// but resets, and channel and session agree (gRPC, "Core concepts": RPC life cycle; gRFC A6, "When Retries are Valid").
pub fn committed_ends_close()
    ensures { CommittedEndsClose }
{}

/// Where an attempt ends, no further attempt follows it, and no other attempt of its call goes on, the call is committed to it next, and then ends by it.
/// Nothing follows at once but resets, and channel and session agree (gRFC A6, "Retry Policy", "Hedging Policy" and "When Retries are Valid").
pub fn lone_last_ends_close()
    ensures { LoneLastEndsClose }
{}

/// Where a transparent retry follows the end of an attempt, it is made at once, and takes the commitment over where the call is committed to that attempt; and
/// nothing follows at once but resets, and channel and session agree (gRFC A6, "Transparent Retries").
pub fn retries_follow_ends()
    ensures { RetriesFollowEnds }
{}

/// These are all but one: an attempt ends with nothing more asked, once it is shown of a last end after which the other attempts of its call are cut off (gRFC A6,
/// "Retry Policy", "Hedging Policy", "Transparent Retries" and "When Retries are Valid").
pub fn ends_are_by_cases()
    ensures cases { EndsByCases }
    ensures cuts { EndsByCuts }
{}

/// A hedged call's attempt ends by a code that its policy does not name, and other attempts of the call go on. The call is committed to it next, each of the
/// others is cut off in its turn, and the call ends. Then nothing follows at once but resets, and channel and session agree (gRFC A6, "Hedging Policy" and "When
/// Retries are Valid").
pub fn last_ends_cut_off()
    ensures { LastEndsCutOff }
{}

/// So one attempt ends, by its pick or by the wire, for whatever cause but that it is cut off. Its end is the next action, what follows from it is alike in channel
/// and session, and the two agree but for resets (gRFC A6, "Retry Policy", "Hedging Policy", "Transparent Retries" and "When Retries are Valid").
pub fn one_attempt_ends()
    ensures { OneAttemptEnds }
{}

/// An attempt that ends leaves it so that what buffers hold for rows is for those that are there (gRFC A6, "Memory Management (Buffering)").
pub fn ends_stay_held()
    ensures { EndsStayHeld }
{}

/// The runs of equal throttle settings rise as the configs of a session come: a config read joins the run of the one before or begins the next, and every other
/// action leaves the configs as they are (gRFC A6, "Throttling Retry Attempts and Hedged RPCs").
pub fn runs_rise()
    ensures stay { RunsStay }
    ensures sessions { RunsOfSessions }
{}
