// What an action of one call leaves of every other one, along a list of actions; nothing runs.
ghost use Rattle.call_cases.specs.OtherCalls.Laws.{AllCallsStay, BucketsAreOfRuns, CallsStay, ColumnsStay, OthersAreSame, RowsStay, SetsStay};

/// The slot of every other call agrees as before.
pub fn calls_stay()
    ensures each { CallsStay }
    ensures all { AllCallsStay }
{}

/// The other calls of the session, their part of the ledger and their rows are as before.
pub fn others_are_same()
    ensures calls { OthersAreSame }
    ensures columns { ColumnsStay }
    ensures rows { RowsStay }
{}

/// What the channel's sets say of other calls is as before.
pub fn sets_stay()
    ensures { SetsStay }
{}

/// A call is lent the bucket of the run of its config (gRFC A6, "Throttling Retry Attempts and Hedged RPCs").
pub fn buckets_are_of_runs()
    ensures { BucketsAreOfRuns }
{}
