// How many calls, links and dials a session has; nothing runs.
ghost use Rattle.channel_actions.specs.FewCalls.Laws.{AsksAreFew, BytesAreFew, CallsAreFew, DialsAreFew, LinksAreFew, StreamsAreOfAttempts};

use lb_policy::laws_of_the_table;

/// A session has no more calls than entries.
pub fn calls_are_few()
    ensures { CallsAreFew }
{}

/// A session has no more links than entries, and dialled no subchannel more often than it has entries since that was READY; and what came on a link fits in a
/// journal.
pub fn links_are_few()
    ensures links { LinksAreFew }
    ensures dials { DialsAreFew }
    ensures bytes { BytesAreFew }
{}

/// A session has no more pick requests than attempts, but for the one that is being acted on (gRPC, "Load Balancing in gRPC").
pub fn asks_are_few()
    ensures { AsksAreFew }
{
    laws_of_the_table();
}

/// A link opened no more streams than a session has attempts with one or that go on, those left out that wait for one on it (RFC 9113, section 5.1.1).
pub fn streams_are_of_attempts()
    ensures { StreamsAreOfAttempts }
{}
