// What a user of gRPC may count on in every session; nothing runs.
ghost use Rattle.session_order.specs.SessionLaws.Attempts.{AttemptsAreCapped, AttemptsAreNumbered, AttemptsNeedConfigs};
ghost use Rattle.session_order.specs.SessionLaws.Calls.{OpenCallsAttempt, OpenChannelsBegin, TakesAreNext};
ghost use Rattle.session_order.specs.SessionLaws.Deadlines.{DeadlinesEndCalls, EventsFollowDeadlines};
ghost use Rattle.session_order.specs.SessionLaws.Chains.{CommitmentsChain};
ghost use Rattle.session_order.specs.SessionLaws.Policies.{CurrentOnesAreAsked};

/// A call has at most as many attempts as its configuration allows: maxAttempts of its retryPolicy or hedgingPolicy, and one without (gRFC A6, "Maximum
/// Number of Retries" and "Hedging Policy"). Before it has a configuration it has none. A transparent retry is no further attempt ("Transparent Retries").
pub fn attempts_are_capped()
    ensures most { AttemptsAreCapped }
    ensures none { AttemptsNeedConfigs }
{}

/// The attempts of a call are numbered 1, 2, 3 in the order of their making; a transparent retry has the number of an attempt of its call that was made
/// before it (gRFC A6, "Maximum Number of Retries" and "Transparent Retries").
pub fn attempts_are_numbered()
    ensures { AttemptsAreNumbered }
{}

/// No attempt is made of a call that has ended, but a transparent retry, and no call begins on a channel that was shut down (gRPC, "Core concepts": RPC
/// life cycle).
pub fn ended_calls_rest()
    ensures calls { OpenCallsAttempt }
    ensures channels { OpenChannelsBegin }
{}

/// What an application takes is the next of the head and the messages of the committed attempt's response, and then the end of the call, once (gRPC, "Core
/// concepts": unary and streaming calls).
pub fn takes_are_next()
    ensures { TakesAreNext }
{}

/// An event is applied where the deadline of no open call has come: a call whose deadline has come by the moment of the entry ends before it (gRPC, "Core
/// concepts": Deadlines/Timeouts).
pub fn deadlines_come_first()
    ensures event { EventsFollowDeadlines }
    ensures calls { DeadlinesEndCalls }
{}

/// A pick is asked of the load balancing policy that is current then, and of no retired one ("Load Balancing in gRPC").
pub fn current_policies_are_asked()
    ensures { CurrentOnesAreAsked }
{}

/// A call is committed to an attempt where it is not committed yet, or where it is committed to one of the same number, which a transparent retry has (gRFC
/// A6, "When Retries are Valid" and "Transparent Retries").
pub fn commitments_chain()
    ensures { CommitmentsChain }
{}
