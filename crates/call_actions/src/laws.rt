// What is done to a call, as actions of a session; nothing runs.
ghost use Rattle.call_actions.specs.Laws.{AttemptsAreCut, AttemptsAreDue, AttemptsAreMade, AttemptsArePlaced, CallsBegin, CallsClose, CallsEnd, CommittedEndsClose, ConfigsCome, FinalEndsClose, HedgesAreRefused, HedgesAreTested, HedgesAreWithheld, HedgesGoOn, LastHedgesClose, LongMessagesEnd, NoneIsMade, QuietCallsEnd, RefusedAreRetried, RequestsFinish, RetriesAreSet};

/// A call until it has its configuration (gRPC, "Core concepts"; "Service Config in gRPC"): it begins, the channel ends it, or the configuration comes;
/// and a message that was too long for it ends it at once. Session and channel make the same of it.
pub fn calls_before_configuration()
    ensures begun { CallsBegin }
    ensures ended { CallsEnd }
    ensures config { ConfigsCome }
    ensures long { LongMessagesEnd }
{}

/// Of any call (gRFC A6, "Retry Policy", "Hedging Policy" and "Throttling Retry Attempts and Hedged RPCs"): its request is finished; its next attempt is due in
/// session and channel at one moment, or in none; the tokens forbid it in both or in none; and a hedge is withheld.
pub fn calls_go_on_alike()
    ensures finished { RequestsFinish }
    ensures due { AttemptsAreDue }
    ensures tested { HedgesAreTested }
    ensures withheld { HedgesAreWithheld }
{}

/// Where the session makes the next attempt of a call, the channel makes the same, and where it makes none, neither does the channel (gRFC A6, "Retry
/// Policy", "Hedging Policy" and "Throttling Retry Attempts and Hedged RPCs"); and an attempt that waits for a pick is placed on a link in both.
pub fn attempts_are_made_alike()
    ensures made { AttemptsAreMade }
    ensures none { NoneIsMade }
    ensures refused { HedgesAreRefused }
    ensures placed { AttemptsArePlaced }
{}

/// An attempt ends, its end counts, and its call goes on (gRFC A6, "Retry Policy", "Exponential Backoff", "Pushback" and "Throttling Retry Attempts and
/// Hedged RPCs"): the same end stands in the ledger, with the same count of tokens and the same random word, and the next attempt is due at one moment.
pub fn calls_go_on_after_ends()
    ensures retry { RetriesAreSet }
    ensures hedge { HedgesGoOn }
{}

/// An attempt that is over, since its call has ended or is committed to another one, is cut off in both (gRFC A6, "Hedging Policy" and "When Retries are
/// Valid"; gRPC, "Core concepts": Cancelling an RPC), with the same end and the same count of tokens.
pub fn attempts_are_cut_alike()
    ensures { AttemptsAreCut }
{}

/// An attempt that the server did not process, or that was never sent, ends, and a transparent retry of its number follows it at once in both (gRFC A6,
/// "Transparent Retries").
pub fn refused_attempts_are_retried()
    ensures { RefusedAreRetried }
{}

/// A call ends, whatever its attempts do (gRPC, "Core concepts": Deadlines/Timeouts, Cancelling an RPC): those that wait for a pick are given up, no further
/// one is made, and where none is outstanding session and channel agree at once.
pub fn calls_end_alike()
    ensures closed { CallsClose }
    ensures quiet { QuietCallsEnd }
{}

/// The committed attempt of a call ends, and by it the call, in both (gRPC, "Core concepts": RPC life cycle; gRFC A6, "When Retries are Valid").
pub fn committed_ends_close_calls()
    ensures { CommittedEndsClose }
{}

/// An attempt ends, no further attempt follows its end and none goes on: in both the call is committed to it and ends by it (gRFC A6, "When Retries are
/// Valid", "Retryable Status Codes" and "Hedging Policy").
pub fn final_ends_close_calls()
    ensures closed { FinalEndsClose }
    ensures hedged { LastHedgesClose }
{}
