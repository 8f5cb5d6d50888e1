// The settling of a channel, step by step, is a list of actions of a session; nothing runs.
ghost use Rattle.call_cases.specs.SettlingActions.Laws.{RoundsAreSteps, SettlingsAreSteps};

/// Where each step of a settling keeps channel and session in agreement, the settling does, and the entry closes.
pub fn settlings_are_steps()
    ensures rounds { RoundsAreSteps }
    ensures settling { SettlingsAreSteps }
{}
