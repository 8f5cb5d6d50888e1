// What a link reads and writes, as actions of a session; nothing runs.
ghost use Rattle.link_actions.specs.Laws.{ControlsAreSame, DrainsAreWritten, EndsKeep, FramesAreJudged, NewOnesAgree, NoneIsOwed, PingsKeep, QuietFramesKeep, ReadsAreSame, ResetsKeep, WritesAreSame, WritesKeep};

/// A new link is what a new link of a session is; a whole frame breaks the link by the same rule, with the same code (RFC 9113, section 5.4.1).
/// What the bytes show next is the same: nothing yet, a frame that both have read, or a link that is broken. A frame of no attempt's stream makes the same
/// control frames owed, and both agree after it.
pub fn reading_is_actions()
    ensures new { NewOnesAgree }
    ensures judged { FramesAreJudged }
    ensures read { ReadsAreSame }
    ensures quiet { QuietFramesKeep }
{}

/// What is written whatever the windows is the same, in the same order: the preface, then the control frames that are owed (RFC 9113, sections 3.4, 6.4,
/// 6.5.3, 6.7 and 6.9).
pub fn control_frames_are_actions()
    ensures next { ControlsAreSame }
    ensures none { NoneIsOwed }
{}

/// What a link writes next is what the session does, the same bytes, or nothing in both. First come control frames, then HEADERS of the first attempt that waits,
/// while SETTINGS_MAX_CONCURRENT_STREAMS and GOAWAY allow it, then DATA of the lowest stream that may send (RFC 9113, sections 5.1.2 and 6.9). After it
/// the link is what the session then is, so this goes on for as long as frames are written.
pub fn writing_is_actions()
    ensures same { WritesAreSame }
    ensures after { WritesKeep }
{}

/// A drain is a list of frames that are written, each of which is what the session writes next, and no other; it ends where nothing is left to write, or
/// where the next does not fit into the room.
pub fn drains_are_actions()
    ensures { DrainsAreWritten }
{}

/// An attempt that ends in the session, for whatever cause, has neither a stream on its link any more, nor does it wait there; and RST_STREAM for its stream
/// is queued after what was owed (RFC 9113, sections 5.1.2 and 6.4).
pub fn ends_are_actions()
    ensures end { EndsKeep }
    ensures reset { ResetsKeep }
{}

/// A PING of the environment is queued after what is owed (RFC 9113, section 6.7).
pub fn pings_are_actions()
    ensures { PingsKeep }
{}
