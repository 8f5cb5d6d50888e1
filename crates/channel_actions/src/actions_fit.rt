// Where an action is next, it fits; nothing runs.
ghost use Rattle.channel_actions.specs.ActionsFit.Laws.{NextActionsFit};

use crate::kept_calls::calls_are_kept;

/// Where an action is next, its line says of it what the laws on what follows after it ask for.
pub fn actions_fit()
    ensures { NextActionsFit }
{
    calls_are_kept();
}
