// No call of a channel stands still; nothing runs.
ghost use Rattle.channel_actions.specs.GoingCalls.Laws.{AnswersGoOn, DeadlinesGoOn, EachGoesOn, LossesGoOn, NewCallsGoOn, SettlingsGoOn, StepsGoOn};

use call_core::{calls_are_kept, calls_go_on, takes_leave_rows};

/// Of a channel every call that runs has an attempt that is queued or outstanding, or one that is due, and makes one attempt at a time where its plan is not
/// to hedge (gRFC A6). It is so of a new channel, and each step keeps it, and each part of a step.
pub fn calls_of_channels_go_on()
    ensures begins { NewCallsGoOn }
    ensures steps { StepsGoOn }
    ensures deadlines { DeadlinesGoOn }
    ensures answers { AnswersGoOn }
    ensures settlings { SettlingsGoOn }
    ensures each { EachGoesOn }
    ensures losses { LossesGoOn }
{
    calls_are_kept();
    calls_go_on();
    takes_leave_rows();
}
