// Calls that are to end; nothing runs.
ghost use Rattle.call_cases.specs.SendsEnd.Laws.{CallsThatAreToEnd};

/// A call whose end is next ends alike in channel and session (gRPC, "Core concepts": RPC life cycle).
pub fn calls_end_alike()
    ensures { CallsThatAreToEnd }
{}
