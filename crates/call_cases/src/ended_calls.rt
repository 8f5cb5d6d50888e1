// What stands on the end of one call; nothing runs.
ghost use Rattle.call_cases.specs.CallEnds.Laws.{OpenCancels};
ghost use Rattle.call_cases.specs.ConfigActions.Ends.{CallsWithoutAttemptsEnd};
ghost use Rattle.call_cases.specs.EndedCalls.Laws.{CallsGetConfigsOrEnd, DeadlinesAreMet, LongSendsEnd};
ghost use Rattle.call_cases.specs.LongSends.Laws.{CallsEndAlike};
ghost use Rattle.call_cases.specs.SettlingActions.Steps.{ConfigSteps};

use crate::config_actions::unserved_calls_end;
use crate::configured_calls::calls_get_configs;
use crate::other_calls::{calls_stay, others_are_same, sets_stay};
use channel_actions::kept_calls::calls_are_kept;
use channel_actions::kept_sessions::sessions_are_kept;
use channel_actions::link_frames::{actions_make_no_difference, links_stay};
use net_actions::net_frames::nets_stay;
use net_actions::{policy_steps_are_actions, subchannel_steps_are_actions};
use session_order::config_stirs::configs_stir;
use session_order::{calls_stir, quiescence_is_exact};

/// A Cancel of an open call is answered, and ends the call (gRPC, "Core concepts": Cancelling an RPC).
pub fn open_cancels_are_answered()
    ensures { OpenCancels }
{}

/// Where a call is to end, it ends alike in channel and session.
pub fn calls_to_end_end()
    ensures { CallsEndAlike }
{}

/// A message that the call's config does not allow is answered, and ends its call (gRPC, "Service Config in gRPC": maxRequestMessageBytes).
pub fn long_sends_end()
    ensures { LongSendsEnd }
{}

/// A call without an attempt ends alike in channel and session ("gRPC Wait for Ready Semantics").
pub fn calls_without_attempts_end_too()
    ensures { CallsWithoutAttemptsEnd }
{
    calls_stir();
}

/// Calls whose deadline has come end, the earliest first, before the event of an entry is applied (gRPC, "Core concepts": Deadlines/Timeouts).
pub fn deadlines_are_met()
    ensures { DeadlinesAreMet }
{}

/// Where a config is held, each call that waits for it gets it, or ends by it where it accepted a longer message than that allows (gRPC, "Service Config in gRPC").
pub fn calls_get_configs_or_end()
    ensures { CallsGetConfigsOrEnd }
{
    actions_make_no_difference();
    calls_are_kept();
    calls_get_configs();
    calls_stay();
    quiescence_is_exact();
    configs_stir();
    links_stay();
    nets_stay();
    others_are_same();
    policy_steps_are_actions();
    sessions_are_kept();
    sets_stay();
    subchannel_steps_are_actions();
}

/// So each step of configs, of a settling, is done alike: calls get the config that is held, end by it or for want of one, or wait on.
pub fn config_steps_are_done()
    ensures { ConfigSteps }
{
    calls_without_attempts_end_too();
    calls_get_configs_or_end();
    unserved_calls_end();
}
