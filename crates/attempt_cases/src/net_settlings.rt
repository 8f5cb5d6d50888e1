// What of subchannels and policies is due in a settling; nothing runs.
ghost use Rattle.attempt_cases.specs.NetSettlings.Laws.{ClocksAreParts, WishesAreParts};

use call_cases::other_calls::{calls_stay, sets_stay};
use channel_actions::kept_sessions::sessions_are_kept;
use channel_actions::link_frames::links_stay;
use net_actions::{policy_steps_are_actions, subchannel_steps_are_actions};
use session_order::{boards_stir, quiescence_is_exact};

/// Dials that took too long are given up and backoffs end, until none is due ("Connection Backoff Protocol"); and IDLE subchannels that a policy wishes
/// connect, where no policy may take over ("gRPC Connectivity Semantics and API"; "Load Balancing in gRPC").
pub fn net_settles()
    ensures clock { ClocksAreParts }
    ensures wishes { WishesAreParts }
{
    quiescence_is_exact();
    boards_stir();
    policy_steps_are_actions();
    subchannel_steps_are_actions();
    calls_stay();
    sets_stay();
    sessions_are_kept();
    links_stay();
}
