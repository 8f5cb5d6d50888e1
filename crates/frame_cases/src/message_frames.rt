// Frames that bring messages of a response, and nothing else; nothing runs.
ghost use Rattle.frame_cases.specs.FrameKinds.Laws.{MessagesAreHandled};
ghost use Rattle.frame_cases.specs.MessageFrames.Laws.{MessagesComeAlone};

/// Where a link reports messages, and neither a head nor an end, these came of one response, which is otherwise as before, and nothing came of any other (gRPC over HTTP/2,
/// "Length-Prefixed-Message").
pub fn messages_come_alone()
    ensures { MessagesComeAlone }
{}

/// So they are handled: the call of the response is committed to its attempt, whose application gets them; nothing follows at once, and channel and session agree after it.
pub fn messages_are_handled()
    ensures { MessagesAreHandled }
{}
