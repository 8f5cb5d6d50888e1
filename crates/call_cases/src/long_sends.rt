// What a message that is too long brings; nothing runs.
ghost use Rattle.call_cases.specs.LongSends.Laws.{LongSendsAreAnswered, LongSendsLead};

/// A message that the call's config does not allow is answered, and ends its call (gRPC, "Service Config in gRPC": maxRequestMessageBytes).
pub fn long_sends_lead()
    ensures { LongSendsLead }
{}

/// So it is answered as any other event, where calls that are to end end alike in channel and session.
pub fn long_sends_are_answered()
    ensures { LongSendsAreAnswered }
{}
