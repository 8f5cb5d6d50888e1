// The server's connection preface; nothing runs.
ghost use Rattle.frame_cases.specs.FirstSettings.Laws.{PrefacedFramesAreHandled};

/// The server's first SETTINGS are handled: the subchannel of the link becomes READY, where it has that link still (RFC 9113, section 3.4; "gRPC Connectivity Semantics and
/// API").
pub fn first_settings_are_handled()
    ensures { PrefacedFramesAreHandled }
{}
