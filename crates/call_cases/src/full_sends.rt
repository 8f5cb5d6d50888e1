// What a message brings that commits its call; nothing runs.
ghost use Rattle.call_cases.specs.FullSends.Laws.{FullSendsLead};

/// A message for which its call has no room but that of a committed one is accepted, and commits the call (gRFC A6, "Memory Management (Buffering)").
pub fn full_sends_lead()
    ensures { FullSendsLead }
{}
