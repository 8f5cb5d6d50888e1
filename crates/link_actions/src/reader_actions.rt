// Readers that come, and whose streams are opened, as actions of a session; nothing runs.
ghost use Rattle.link_actions.specs.ReaderActions.Laws.{GoawaysKeepReaders, GoawaysLeaveReaders, OpeningsAddUp, PlacingsGiveReaders, WritesKeepReaders};

/// An attempt that is placed on a link gets a reader there, which reads nothing yet; whatever is written leaves the readers, and HEADERS open the stream of one
/// (RFC 9113, section 5.1.1).
pub fn readers_come_and_open()
    ensures placed { PlacingsGiveReaders }
    ensures written { WritesKeepReaders }
    ensures drained { OpeningsAddUp }
{}

/// After GOAWAY, once the attempts have ended that it ends, the readers that are left have what came of their responses (RFC 9113, section 6.8).
pub fn goaways_keep_readers()
    ensures { GoawaysKeepReaders }
{}

/// And so before any stream is reset, in a session in which all these have ended.
pub fn goaways_leave_readers()
    ensures { GoawaysLeaveReaders }
{}
