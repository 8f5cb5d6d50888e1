// The rounds of a settling end; nothing runs.
ghost use Rattle.attempt_cases.specs.RoundSteps.Laws.{RoundsAreShort};

use call_actions::calls_go_on_alike;
use call_core::{calls_are_kept, calls_go_on, takes_leave_rows};

/// Each round of a settling but the last makes or withholds an attempt, or places or ends one that waits; so the rounds come to an end.
pub fn rounds_are_short()
    ensures { RoundsAreShort }
{
    calls_are_kept();
    calls_go_on();
    calls_go_on_alike();
    takes_leave_rows();
}
