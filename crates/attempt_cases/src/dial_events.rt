// What the environment reports of dials; nothing runs.
ghost use Rattle.attempt_cases.specs.DialEvents.Laws.{FailedDialsAreAnswered, LinksUpAreAnswered, TakenDialsAreAnswered};

use call_cases::other_calls::{calls_stay, sets_stay};
use channel_actions::kept_sessions::sessions_are_kept;
use channel_actions::link_frames::links_stay;
use link_actions::stream_actions::streams_are_kept;
use net_actions::subchannel_steps_are_actions;
use session_order::{boards_stir, quiescence_is_exact};

/// A dial that is taken, fails or is up is answered alike ("gRPC Connectivity Semantics and API"; "Connection Backoff Protocol").
pub fn dials_are_answered()
    ensures taken { TakenDialsAreAnswered }
    ensures failed { FailedDialsAreAnswered }
    ensures up { LinksUpAreAnswered }
{
    quiescence_is_exact();
    boards_stir();
    subchannel_steps_are_actions();
    streams_are_kept();
    calls_stay();
    sets_stay();
    sessions_are_kept();
    links_stay();
}
