// An application begins a call; nothing runs.
ghost use Rattle.call_cases.specs.BeginActions.Laws.{BeginsAreAnswered};

use crate::other_calls::{calls_stay, sets_stay};
use channel_actions::set_frames::sets_change;
use session_order::{calls_stir, quiescence_is_exact};

/// A call that begins is answered with its number, and channel and session agree after it.
pub fn begins_are_answered()
    ensures { BeginsAreAnswered }
{
    calls_stay();
    calls_stir();
    quiescence_is_exact();
    sets_change();
    sets_stay();
}
