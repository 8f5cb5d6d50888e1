// What a channel keeps of its calls; nothing runs.
ghost use Rattle.channel_actions.specs.SoundCalls.Laws.{AnswersKeepCalls, DeadlinesKeepCalls, NewCallsAreSound, SettlingsKeepCalls, StepsKeepCalls};

use call_core::{calls_are_kept, calls_go_on, takes_leave_rows};

/// The calls of a channel are sound: those of a new one are, and each step keeps it, and each part of a step (gRFC A6, "Maximum Number of Retries").
pub fn calls_stay_sound()
    ensures begins { NewCallsAreSound }
    ensures steps { StepsKeepCalls }
    ensures deadlines { DeadlinesKeepCalls }
    ensures answers { AnswersKeepCalls }
    ensures settlings { SettlingsKeepCalls }
{
    calls_are_kept();
    calls_go_on();
    takes_leave_rows();
}
