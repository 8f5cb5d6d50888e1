// What is few in a run; nothing runs.
ghost use Rattle.event_cases.specs.FewStreams.Laws.{AttemptsAreFew, StreamsAreFew};
ghost use Rattle.attempt_cases.specs.ServeSteps.Follows.{NetsMayAsk};

use crate::held_kinds::held_plans_are_short;
use channel_actions::few_calls::asks_are_few;
use channel_actions::transparent_retries::attempts_are_bounded;

/// A run has fewer than 7 * 2^40 attempts.
pub fn attempts_are_few()
    ensures { AttemptsAreFew }
{
    attempts_are_bounded();
    held_plans_are_short();
}

/// A drain leaves a link with fewer than 2^30 streams (RFC 9113, section 5.1.1).
pub fn streams_are_few()
    ensures { StreamsAreFew }
{
    attempts_are_bounded();
    held_plans_are_short();
}

/// While the channel settles its net may ask for a pick: it made no more requests than there are attempts (gRPC, "Load Balancing in gRPC").
pub fn nets_may_ask()
    ensures { NetsMayAsk }
{
    asks_are_few();
}
