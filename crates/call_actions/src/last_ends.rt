// Ends of attempts that a call goes on after, or ends by; nothing runs.
ghost use Rattle.call_actions.specs.LastEnds.Laws.{CommittedAreRetried, DueHedgesGoOn, FinalEndsCutOthers, WithheldHedgesClose, WithheldHedgesEnd};

/// An end of a hedged call's attempt, with a code of its policy, after which a further attempt is due (gRFC A6, "Hedging Policy"): the call goes on in session
/// and channel, whether another attempt does or not.
pub fn due_hedges_go_on()
    ensures { DueHedgesGoOn }
{}

/// A hedge is withheld where no attempt goes on (gRFC A6, "Throttling Retry Attempts and Hedged RPCs"): session and channel commit the call to the attempt
/// whose end counted last, and end the call by it.
pub fn withheld_hedges_close()
    ensures { WithheldHedgesClose }
{}

/// The session's line withholds a hedge where no attempt goes on (gRFC A6, "Throttling Retry Attempts and Hedged RPCs"), of a call of the channel that goes on:
/// an end of the call has counted, and session and channel end the call by the last one.
pub fn withheld_hedges_end()
    ensures { WithheldHedgesEnd }
{}

/// An attempt ends, and no further attempt follows it, by a code that hedgingPolicy does not name, or else (gRFC A6, "Hedging Policy"): session and channel
/// commit the call to it, cut the other attempts off, and end the call by it.
pub fn final_ends_cut_others()
    ensures { FinalEndsCutOthers }
{}

/// The attempt to which a call is committed ends, and was never sent (gRFC A6, "Transparent Retries"): in session and channel a transparent retry follows it
/// at once, and takes the commitment over.
pub fn committed_are_retried()
    ensures { CommittedAreRetried }
{}
