// What follows where a call ends; nothing runs.
ghost use Rattle.call_cases.specs.EndsFollow.Laws.{CutsAreOut, EndsFollow};

/// Where a call ends, for whatever cause, each of its outstanding attempts is cut off, in their order, and then their streams are reset: each of these is the next
/// action, and nothing else follows from the end (gRFC A6, "When Retries are Valid"; gRPC, "Core concepts": RPC life cycle).
pub fn calls_end_in_order()
    ensures cuts { CutsAreOut }
    ensures follow { EndsFollow }
{}
