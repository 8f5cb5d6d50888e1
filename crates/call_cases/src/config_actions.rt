// Calls that wait for their configuration, in a settling, as actions of a session; nothing runs.
ghost use Rattle.call_cases.specs.ConfigActions.Laws.{ConfigsAreStep, ServedCallsGetConfigs, UnservedCallsEnd, UnservedSettlings};

use crate::configured_calls::calls_get_configs;
use crate::other_calls::{calls_stay, others_are_same, sets_stay};
use channel_actions::kept_calls::calls_are_kept;
use channel_actions::kept_sessions::sessions_are_kept;
use channel_actions::link_frames::{actions_make_no_difference, links_stay};
use net_actions::net_frames::nets_stay;
use net_actions::{policy_steps_are_actions, subchannel_steps_are_actions};
use session_order::config_stirs::configs_stir;
use session_order::quiescence_is_exact;

/// Where no config is held and the resolver has answered, the calls that do not wait for ready end, one by one ("gRPC Wait for Ready Semantics").
pub fn unserved_calls_end()
    ensures { UnservedCallsEnd }
{
    calls_are_kept();
    quiescence_is_exact();
    policy_steps_are_actions();
    subchannel_steps_are_actions();
}

/// Where a config is held that allows what they sent, the calls that wait get it, one by one (gRPC, "Service Config in gRPC").
pub fn served_calls_get_configs()
    ensures { ServedCallsGetConfigs }
{
    actions_make_no_difference();
    calls_are_kept();
    calls_get_configs();
    calls_stay();
    quiescence_is_exact();
    configs_stir();
    links_stay();
    nets_stay();
    others_are_same();
    policy_steps_are_actions();
    sessions_are_kept();
    sets_stay();
    subchannel_steps_are_actions();
}

/// Whichever config is held, if any: the calls that wait get it, or end for want of one, or wait on.
pub fn configs_are_step()
    ensures { ConfigsAreStep }
{
    served_calls_get_configs();
    unserved_calls_end();
}

/// Where no config is held, a settling is the net's part and the end of those calls: no attempt is due, and none waits.
pub fn unserved_settlings()
    ensures { UnservedSettlings }
{
    calls_are_kept();
    quiescence_is_exact();
    policy_steps_are_actions();
    subchannel_steps_are_actions();
}
