// A pass over the queue, attempt by attempt, is a list of actions of a session; nothing runs.
ghost use Rattle.attempt_cases.specs.PassActions.Laws.{PassesAreServes, PassesAreShort};
ghost use Rattle.attempt_cases.specs.PassActions.Serves.{PassesStop};

use net_actions::policy_steps_are_actions;

/// A pass over the queue is what is done to each attempt that it serves.
pub fn passes_are_serves()
    ensures { PassesAreServes }
{}

/// Where the channel serves no attempt, no line of the session asks for a pick ("gRPC Wait for Ready Semantics").
pub fn passes_stop()
    ensures { PassesStop }
{
    policy_steps_are_actions();
}

/// A pass ends before it served 2^64 - 1 attempts, since each comes after the one before.
pub fn passes_are_short()
    ensures { PassesAreShort }
{}
