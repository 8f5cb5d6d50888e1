// Take-overs and wishes of a settling; nothing runs.
ghost use Rattle.event_cases.specs.TakeOvers.Laws.{NetsAreSettled};

use attempt_cases::net_chains::chains_are_next;
use call_cases::other_calls::{calls_stay, sets_stay};
use channel_actions::kept_sessions::sessions_are_kept;
use channel_actions::link_frames::links_stay;
use net_actions::subchannel_steps_are_actions;
use session_order::{boards_stir, policies_stir_apart, quiescence_is_exact};

/// In a settling a pending policy takes over, where it may, and wished subchannels connect, until neither is left, alike in channel and session ("gRPC Connectivity
/// Semantics and API"; "Load Balancing in gRPC").
pub fn nets_are_settled()
    ensures { NetsAreSettled }
{
    boards_stir();
    calls_stay();
    quiescence_is_exact();
    chains_are_next();
    links_stay();
    policies_stir_apart();
    sessions_are_kept();
    sets_stay();
    subchannel_steps_are_actions();
}
