// Frames that bring a message which is longer than allowed; nothing runs.
ghost use Rattle.frame_cases.specs.FrameKinds.Laws.{LargeMessagesAreHandled};

/// A frame that brings a message which is longer than allowed is handled: its call ends, its attempt is cut off, and its stream is reset (gRPC over HTTP/2,
/// "Length-Prefixed-Message"; RFC 9113, section 6.4).
pub fn large_frames_are_handled()
    ensures { LargeMessagesAreHandled }
{}
