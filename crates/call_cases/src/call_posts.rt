// What the application of a call takes and posts; nothing runs.
ghost use Rattle.call_cases.specs.CallPosts.Laws.{FinishesAreAnswered, SendsAreAnswered, TakesAreAnswered};

/// A Take is answered with the next item of what came, with NotYet, or refused once the end was taken (gRPC, "Core concepts").
pub fn takes_are_answered()
    ensures { TakesAreAnswered }
{}

/// A Finish ends the request, and is refused once the call ended or was finished (gRPC, "Core concepts").
pub fn finishes_are_answered()
    ensures { FinishesAreAnswered }
{}

/// A Send of a message that neither ends its call nor commits it is accepted, or answered with what the call holds, or refused (gRPC over HTTP/2,
/// "Length-Prefixed-Message"; gRFC A6, "Memory Management (Buffering)").
pub fn sends_are_answered()
    ensures { SendsAreAnswered }
{}
