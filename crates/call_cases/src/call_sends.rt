// What an application sends; nothing runs.
ghost use Rattle.call_cases.specs.CallSends.Laws.{SendsAreAllAnswered};

/// Every Send of a call that is there is answered alike, where calls that are to end, and calls that are to be committed, go on alike (gRPC, "Core concepts"; gRFC
/// A6, "Memory Management (Buffering)").
pub fn sends_are_all_answered()
    ensures { SendsAreAllAnswered }
{}
