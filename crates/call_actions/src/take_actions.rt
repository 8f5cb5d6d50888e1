// What an application posts to a call, and what commits and ends it, as actions of a session; nothing runs.
ghost use Rattle.call_actions.specs.TakeActions.Laws.{CallsBeginAlike, CancelsAreAnswered, CancelsEnd, CommitsCutOthers, DeadlinesEnd, DeadlinesWait, EndsCutAttempts, FinishesAreDone, HeadsCommit, LongSendsEnd, SendsAreAnswered, SendsOverflow, TakesAreItems};

/// An application takes what came of a response, in its order, and then the end (gRPC, "Core concepts": RPC life cycle; gRFC A6, "When Retries are
/// Valid": what it gets is of one attempt). Session and channel give the same, and agree after it.
pub fn responses_are_taken()
    ensures { TakesAreItems }
{}

/// An application begins a call, sends, finishes or gives up its request (gRPC, "Core concepts": RPC life cycle, Cancelling an RPC; gRFC A6, "Memory Management
/// (Buffering)"). Session and channel answer the same, and agree after it.
pub fn requests_are_sent()
    ensures begun { CallsBeginAlike }
    ensures finished { FinishesAreDone }
    ensures cancelled { CancelsAreAnswered }
    ensures sent { SendsAreAnswered }
{}

/// A call is committed to one attempt, by the head of its response or by a message for which there is no room else: its other attempts are cut off right
/// then (gRFC A6, "When Retries are Valid", "Hedging Policy" and "Memory Management (Buffering)"). Session and channel agree after it.
pub fn calls_are_committed()
    ensures cuts { CommitsCutOthers }
    ensures head { HeadsCommit }
    ensures overflow { SendsOverflow }
{}

/// A call ends by the channel: its attempts are cut off right then. The application gives it up, sends what its config does not allow, or its deadline
/// comes (gRPC, "Core concepts": Deadlines/Timeouts, Cancelling an RPC; "Service Config in gRPC": timeout, maxRequestMessageBytes). Session and channel
/// agree after it.
pub fn calls_are_ended()
    ensures cuts { EndsCutAttempts }
    ensures cancelled { CancelsEnd }
    ensures long { LongSendsEnd }
    ensures deadline { DeadlinesEnd }
    ensures waits { DeadlinesWait }
{}
