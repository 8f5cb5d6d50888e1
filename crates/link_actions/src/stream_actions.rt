// Frames of an attempt's stream, as actions of a session; nothing runs.
ghost use Rattle.link_actions.specs.StreamActions.Laws.{BlocksAreRead, BlocksEndAlike, CutsKeep, DataEndsAlike, DataIsRead, GoawaysAreRead, GoawaysEndAlike, NewLinksAgree, OthersAreRead, PartsAreRead, QuietFramesKeepStreams, ResetsAreRead, ResetsEndAlike, UpdatesAreRead, WritesKeepStreams};

/// What a link knows of the responses on its streams is what the session says of a new link, and stays so with whatever is written, and with frames of no
/// attempt's stream.
pub fn streams_are_kept()
    ensures new { NewLinksAgree }
    ensures write { WritesKeepStreams }
    ensures quiet { QuietFramesKeepStreams }
{}

/// A frame of an attempt's stream makes the same owed in both, and its attempt goes on or ends alike: DATA (RFC 9113, section 6.1), header
/// blocks (8.1), RST_STREAM (6.4), WINDOW_UPDATE (6.9), and those that are passed over (4.1); and an attempt that is cut off ends alike (5.4.2).
pub fn streams_are_actions()
    ensures cut { CutsKeep }
    ensures content { DataIsRead }
    ensures block { BlocksAreRead }
    ensures part { PartsAreRead }
    ensures reset { ResetsAreRead }
    ensures update { UpdatesAreRead }
    ensures other { OthersAreRead }
{}

/// GOAWAY ends the attempts whose streams it leaves out, and those that wait for a stream; and then the streams that it leaves out are reset, in their
/// order (RFC 9113, section 6.8).
pub fn goaways_are_actions()
    ensures { GoawaysAreRead }
{}

/// An end that the link acts on is the session's own: the response has it, and its stream is reset with the code by which the session resets it (gRPC over
/// HTTP/2, "Errors").
pub fn ends_are_of_responses()
    ensures content { DataEndsAlike }
    ensures block { BlocksEndAlike }
    ensures reset { ResetsEndAlike }
    ensures goaway { GoawaysEndAlike }
{}
