// The link of a subchannel is one that came up for it; nothing runs.
ghost use Rattle.channel_actions.specs.OwnLinks.Laws.{OwnAlong, OwnBegins, OwnStays};

use crate::kept_sessions::sessions_are_kept;

/// In every session the link of a subchannel is one that came up for it ("gRPC Connectivity Semantics and API").
pub fn links_are_own()
    ensures begins { OwnBegins }
    ensures stays { OwnStays }
    ensures along { OwnAlong }
{
    sessions_are_kept();
}
