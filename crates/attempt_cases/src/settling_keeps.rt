// What the steps of a settling ask of channel and session is kept; nothing runs.
ghost use Rattle.channel_actions.specs.KeptCalls.Laws.{EarlyAlong};
ghost use Rattle.call_cases.specs.SettlingActions.Laws.{SettlingKeeps};

use call_core::{calls_are_kept, calls_go_on, takes_leave_rows};
use channel_actions::kept_calls;

/// What a session keeps of calls before their first attempt, it keeps along every list of actions.
pub fn early_goes_on()
    ensures { EarlyAlong }
{
    kept_calls::calls_are_kept();
}

/// Each part of a settling leaves what the others ask of channel and session.
pub fn settlings_keep()
    ensures { SettlingKeeps }
{
    calls_are_kept();
    calls_go_on();
    takes_leave_rows();
    early_goes_on();
}
