// Frames that bring the head of a response; nothing runs.
ghost use Rattle.frame_cases.specs.FrameKinds.Laws.{HeadsAreHandled};
ghost use Rattle.frame_cases.specs.HeadFrames.Laws.{HeadsComeAlone};

/// Where a link reports a head, and neither an end nor a message that is too long, it came of one response, which is otherwise as before, and nothing came of any other (gRPC over
/// HTTP/2, "Responses").
pub fn heads_come_alone()
    ensures { HeadsComeAlone }
{}

/// So it is handled: a call that is not committed is committed to the attempt, and its other attempts are cut off (gRFC A6, "When Retries are Valid"); of a call that is committed
/// already the application gets it; and channel and session agree after it.
pub fn heads_are_handled()
    ensures { HeadsAreHandled }
{}
