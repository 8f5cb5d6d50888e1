// Frames of which a link reports nothing; nothing runs.
ghost use Rattle.frame_cases.specs.QuietFrames.Laws.{QuietFramesAreHandled, QuietFramesLeaveResponses};

/// A frame of which the link reports nothing, and no GOAWAY, leaves the responses of a session without anything new. So nothing follows from it at once, and channel and
/// session agree after it: PING, PRIORITY and unknown types, SETTINGS after the first, WINDOW_UPDATE, frames of streams that are closed, parts of header blocks and of
/// messages, interim responses (RFC 9113, sections 4.1, 4.3, 5.1, 6.5.3, 6.7 and 6.9; gRPC over HTTP/2, "Length-Prefixed-Message").
pub fn quiet_frames_are_handled()
    ensures responses { QuietFramesLeaveResponses }
    ensures handled { QuietFramesAreHandled }
{}
