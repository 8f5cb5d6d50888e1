// A first Shutdown of the channel; nothing runs.
ghost use Rattle.event_cases.specs.FirstShutdowns.Laws.{FirstShutdownsAreAnswered, ShutdownsEndCalls, ShutsAreStamped};

use crate::generation_stamps::generations_go_along;
use crate::left_links::left_links_are_stamped;
use attempt_cases::net_chains::chains_are_next;
use channel_actions::their_links::links_are_theirs;

/// A Shutdown of an open channel ends all its calls, the lowest number first, alike in channel and session (gRPC, "Core concepts": RPC life cycle).
pub fn shutdowns_end_calls()
    ensures { ShutdownsEndCalls }
{}

/// Where policies are retired and subchannels are shut by it, the ledger has the same stamps of policies and links ("gRPC Connectivity Semantics and API").
pub fn shuts_are_stamped()
    ensures { ShutsAreStamped }
{
    generations_go_along();
    left_links_are_stamped();
}

/// And then its policies are retired and its subchannels are shut, and the event is answered ("gRPC Connectivity Semantics and API").
pub fn first_shutdowns_are_answered()
    ensures { FirstShutdownsAreAnswered }
{
    chains_are_next();
    links_are_theirs();
    shuts_are_stamped();
}
