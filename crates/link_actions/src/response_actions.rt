// What links report of responses, as actions of a session; nothing runs.
ghost use Rattle.link_actions.specs.ResponseActions.Laws.{BlocksAreReported, CodesStay, CutsAreCancelled, CutsTakeReaders, DataIsReported, EndsKeepReaders, GoawaysAreReported, OthersAreReported, PartsAreReported, QuietIsReported, ReadersAreLeft, ReadsStayCounted, ResetsAreReported, UpdatesAreReported};

/// What a link reports of a frame of an attempt's stream is what the frame adds to its response: the head, messages, a message that is too long, the end
/// with its code and metadata. Link and readers agree with the session again (gRPC over HTTP/2, "Responses").
pub fn responses_are_reported()
    ensures content { DataIsReported }
    ensures block { BlocksAreReported }
    ensures part { PartsAreReported }
    ensures reset { ResetsAreReported }
    ensures update { UpdatesAreReported }
    ensures other { OthersAreReported }
{}

/// An attempt that ended has no reader, and all others keep theirs; so it is where one is cut off, and through whatever leaves the responses.
pub fn ends_keep_readers()
    ensures ends { EndsKeepReaders }
    ensures cuts { CutsTakeReaders }
    ensures left { ReadersAreLeft }
{}

/// A frame of no attempt's stream is reported where it is the first SETTINGS, and leaves the readers.
pub fn quiet_frames_are_reported()
    ensures { QuietIsReported }
{}

/// The code with which a stream is reset stays once its attempt has ended; that of an attempt that is cut off while its response goes on is CANCEL.
pub fn codes_stay()
    ensures code { CodesStay }
    ensures counted { ReadsStayCounted }
    ensures cut { CutsAreCancelled }
{}

/// GOAWAY is reported of the streams that it leaves out, and of the attempts that wait for one; the other readers stay (RFC 9113, section 6.8).
pub fn goaways_are_reported()
    ensures { GoawaysAreReported }
{}
