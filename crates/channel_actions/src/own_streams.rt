// Streams of attempts; nothing runs.
ghost use Rattle.channel_actions.specs.OwnStreams.Laws.{FramesAreSendable, StreamsAlong, StreamsBegin, StreamsStay, WritesLeaveOthers};

/// No two attempts of a link have one stream (RFC 9113, section 5.1.1): it is so of a new session, after each action that is next, and so after every list of actions.
/// A frame that is written next is what its link sends next; so what is written on a link leaves what was written for every attempt that does not go on there.
pub fn own_streams_stay()
    ensures begins { StreamsBegin }
    ensures stays { StreamsStay }
    ensures along { StreamsAlong }
    ensures sends { FramesAreSendable }
    ensures others { WritesLeaveOthers }
{}
