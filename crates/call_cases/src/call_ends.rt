// Calls that end; nothing runs.
ghost use Rattle.call_cases.specs.CallEnds.Laws.{CancelsStand, EndsAgree, EndsGoOn, LateCancels};

/// Where a call ends, its attempts are cut off and their streams are reset, each of these the next action. Then nothing more follows from it, and the clock,
/// the configs, the links and the net of the channel agree (gRPC, "Core concepts": RPC life cycle).
pub fn ends_go_on()
    ensures on { EndsGoOn }
    ensures agree { EndsAgree }
{}

/// A Cancel of a call that has ended is refused with CallEnded, and changes nothing.
pub fn late_cancels_are_refused()
    ensures { LateCancels }
{}

/// A Cancel of an open call is answered Done, and the call ends by it, where calls end alike.
pub fn cancels_stand()
    ensures { CancelsStand }
{}
