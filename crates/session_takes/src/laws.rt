// What a user of gRPC may count on of all that a call gives; nothing runs.
ghost use Rattle.session_takes.specs.Takes.{EndsAreLast, EndsComeAtOnce, ItemsStay, JournalsReport, OnlyCallsAreTaken, TakesAreFirst, TakesAreWhole};
ghost use Rattle.session_takes.specs.Commits.{CommitsAreOne, FreeCallsAttempt};
ghost use Rattle.session_takes.specs.Journals.{JournalsReportFirst, JournalsReportWhole};
ghost use Rattle.session_takes.specs.Shut.{ShutChannelsStay};

/// All that an application took of a call is, in order, a prefix of what its call has at last: the head and the messages of the committed attempt's response,
/// and then the end of the call. Of no other call is anything taken (gRPC, "Core concepts": unary and streaming calls).
pub fn takes_are_first()
    ensures first { TakesAreFirst }
    ensures only { OnlyCallsAreTaken }
{}

/// Between two entries the journal reports just what was taken of each call: its Takes were answered with these items, in this order. So of a journal and a
/// ledger that are those of a session, the Takes of a call reported the first items of what the call has. Where its attempt ended by itself, the head, each
/// message and the end of the response, all of them once an end was reported (gRPC over HTTP/2, "Responses").
pub fn journals_report()
    ensures taken { JournalsReport }
    ensures first { JournalsReportFirst }
    ensures whole { JournalsReportWhole }
{}

/// What a call has stays, and more only comes after it (gRFC A6, "When Retries are Valid": once a call is committed no other attempt's response reaches the
/// application).
pub fn items_stay()
    ensures { ItemsStay }
{}

/// Where the attempt to which a call is committed has an end that counts, and nothing else ended the call, its Takes give the head, each message and this
/// end, in order, and nothing after it (gRPC over HTTP/2, "Responses"). Between two entries all of it is there to be taken.
pub fn takes_are_whole()
    ensures whole { TakesAreWhole }
    ensures comes { EndsComeAtOnce }
    ensures last { EndsAreLast }
{}

/// All attempts to which a call was committed have one number: a commitment goes on only from an attempt to its transparent retry (gRFC A6, "When Retries are
/// Valid" and "Transparent Retries").
pub fn commitments_are_one()
    ensures { CommitsAreOne }
{}

/// No attempt is made of a call that is committed, but a transparent retry (gRFC A6, "When Retries are Valid").
pub fn committed_calls_rest()
    ensures { FreeCallsAttempt }
{}

/// A channel that was shut down stays so ("gRPC Connectivity Semantics and API": SHUTDOWN).
pub fn channels_stay_shut()
    ensures { ShutChannelsStay }
{}
