// What follows after an action of a session, and what does not; nothing runs.
ghost use Rattle.session_order.specs.Laws.{ApplicationsStir, AttemptsStir, BoardsStir, CallsStir, QuiescenceIsExact, QuiescenceLeavesStage, EntriesStir, FirstLineGives, LinesAreStill, LinksStir, PoliciesStirApart, QueuesStir};
ghost use Rattle.session_order.specs.Order.{ActionsKeepPlaces, SessionsAreInPlace};
ghost use Rattle.session_order.specs.AtRest.{EntriesBeginQuiescent, EntriesEndAtRest, NewOnesRest};
ghost use Rattle.session_order.specs.Waits.{EndsWhereNothingWaits};

/// A session is quiescent exactly where none of the lines gives anything that come before its stage; what is next is then the stage's, and else what the first
/// line gives that is not still (gRFC A6, gRPC over HTTP/2 and RFC 9113, as each line says).
pub fn quiescence_is_exact()
    ensures lines { LinesAreStill }
    ensures quiescent { QuiescenceIsExact }
    ensures stage { QuiescenceLeavesStage }
    ensures first { FirstLineGives }
{}

/// A refusal, an answer, the end of an event and a resolution that failed stir no line but, for an answer, those by which a call ends that was cancelled or
/// sent too long a message.
pub fn entries_stir()
    ensures { EntriesStir }
{}

/// What an application sends or takes stirs no line but, for a message, that by which more bytes were accepted than are kept (gRFC A6, "Memory Management
/// (Buffering)").
pub fn applications_stir()
    ensures { ApplicationsStir }
{}

/// Bytes that come, and a PING that is queued, stir no line: what follows from them follows where a frame is read or written.
pub fn links_stir()
    ensures { LinksStir }
{}

/// An entry ends exactly where nothing is due that could be done by now. No attempt that is due is not made, none is queued that the current policy would
/// serve, and no call lacks a config that is there. No backoff is over and no dial overdue, no policy waits that may take over, no wished subchannel is IDLE
/// (gRFC A6, "Retry Policy" and "Hedging Policy"; "Connection Backoff Protocol"; "gRPC Connectivity Semantics and API"; "Load Balancing in gRPC").
pub fn entries_end_where_nothing_waits()
    ensures { EndsWhereNothingWaits }
{}

/// Between two entries a session is at rest: so it begins; an entry begins quiescent; and one that closes quiescent leaves it at rest.
pub fn entries_rest()
    ensures fresh { NewOnesRest }
    ensures begin { EntriesBeginQuiescent }
    ensures end { EntriesEndAtRest }
{}

/// What becomes of one subchannel stirs no line: a dial that is taken or fails, a wish, a backoff that is over ("gRPC Connectivity Semantics and API";
/// "Connection Backoff Protocol").
pub fn boards_stir()
    ensures { BoardsStir }
{}

/// A pick request stirs the line by which its answer is acted on, and a hedge that is withheld that by which the last end of its call is final (gRFC A6,
/// "Throttling Retry Attempts and Hedged RPCs").
pub fn queues_stir()
    ensures { QueuesStir }
{}

/// A call that ends stirs the line of the cuts alone: of a call that has ended nothing follows but that its attempts are cut off (gRFC A6, "When Retries are
/// Valid"; gRPC, "Core concepts": RPC life cycle).
pub fn calls_stir()
    ensures { CallsStir }
{}

/// An attempt that is made with a number of its own, is placed, or has its stream reset stirs no line. One that gets its call stirs those by which the
/// other attempts are cut and the call ends (of all these but for the line of final ends). An attempt that ends stirs the lines by which it is retried
/// transparently, by which its call is committed or ends, and by which its stream is reset (gRFC A6, "When Retries are Valid", "Transparent Retries" and
/// "Summary of Retry and Hedging Logic"; RFC 9113, section 5.4.2).
pub fn attempts_stir()
    ensures { AttemptsStir }
{}

/// Policies that begin, get addresses, take over or are retired, and the subchannels that are shut with them, stir no line of calls or links ("Load Balancing
/// in gRPC").
pub fn policies_stir_apart()
    ensures { PoliciesStirApart }
{}

/// Calls, attempts, policies, subchannels and links have the numbers of their places in every session.
pub fn sessions_are_in_place()
    ensures kept { ActionsKeepPlaces }
    ensures sessions { SessionsAreInPlace }
{}
