// A link that takes further streams is its subchannel's own; nothing runs.
ghost use Rattle.channel_actions.specs.TheirLinks.Laws.{TheirsAlong, TheirsBegin, TheirsStay};

/// In every session a link that is not over, and takes further streams, is its subchannel's own, unless that was shut down ("gRPC Connectivity Semantics and API").
pub fn links_are_theirs()
    ensures begins { TheirsBegin }
    ensures stays { TheirsStay }
    ensures along { TheirsAlong }
{}
