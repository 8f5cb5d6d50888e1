// What a step of the net leaves; nothing runs.
ghost use Rattle.attempt_cases.specs.NetSteps.Laws.{LinksSeeNoDifference, NetStepsKeep, LinksWithoutDifferenceAgree};

use call_cases::other_calls::{calls_stay, sets_stay};
use channel_actions::kept_sessions::sessions_are_kept;
use channel_actions::link_frames::links_stay;

/// Of actions of subchannels and policies no link reports, but the one that comes up, or whose SETTINGS did not come in time ("gRPC Connectivity Semantics and
/// API"; "Load Balancing in gRPC").
pub fn links_see_no_difference()
    ensures links { LinksSeeNoDifference }
    ensures no_difference { LinksWithoutDifferenceAgree }
{
    links_stay();
}

/// A step of the net keeps channel and session in agreement, where both have the same subchannels, policies and links after it.
pub fn net_steps_keep()
    ensures { NetStepsKeep }
{
    calls_stay();
    sets_stay();
    sessions_are_kept();
}
