// Frames by what a link reports of them; nothing runs.
ghost use Rattle.frame_cases.specs.FrameKinds.Laws.{FramesByKinds};

/// Every frame is handled, where each is that ends an attempt, brings a message that is too long, a head, messages or the server's first SETTINGS, and GOAWAY: of all others
/// the link reports nothing, and they are handled.
pub fn frames_by_kinds()
    ensures { FramesByKinds }
{}
