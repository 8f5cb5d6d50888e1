// A settling from its parts; nothing runs.
ghost use Rattle.run_cases.specs.SettlingParts.Laws.{MakingStands, QueueStands, RoundsStand, SettlingsStand};

use attempt_cases::making_steps::{makes_by_cases, rounds_make};
use attempt_cases::pass_actions::{passes_are_serves, passes_are_short, passes_stop};
use attempt_cases::round_steps::rounds_are_short;
use attempt_cases::serve_steps::serves_by_answers;
use attempt_cases::settling_keeps::settlings_keep;
use call_cases::ended_calls::config_steps_are_done;
use call_cases::settling_actions::settlings_are_steps;

/// The attempts of a round, its pass over the queue, and that rounds end, by what is left of these steps; and with it a settling keeps channel and session in
/// agreement, where its clock and its net do (gRPC, "Load Balancing in gRPC"; gRFC A6).
pub fn settlings_stand()
    ensures making { MakingStands }
    ensures queue { QueueStands }
    ensures rounds { RoundsStand }
    ensures settling { SettlingsStand }
{
    config_steps_are_done();
    makes_by_cases();
    passes_are_serves();
    passes_are_short();
    passes_stop();
    rounds_are_short();
    rounds_make();
    serves_by_answers();
    settlings_are_steps();
    settlings_keep();
}
