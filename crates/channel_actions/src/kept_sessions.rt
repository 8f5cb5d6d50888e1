// What every session keeps in order; nothing runs.
ghost use Rattle.channel_actions.specs.KeptSessions.Laws.{KeptAlong, KeptBegins, KeptStays};

use call_actions::calls_apart::books_are_kept;
use call_actions::reads_in_order::{links_have_their_numbers, reads_stay_in_order};
use session_order::sessions_are_in_place;

/// What a session keeps in order holds of a new session, after each action that is next, and so after every list of actions.
pub fn sessions_are_kept()
    ensures begins { KeptBegins }
    ensures stays { KeptStays }
    ensures along { KeptAlong }
{
    books_are_kept();
    links_have_their_numbers();
    reads_stay_in_order();
    sessions_are_in_place();
}
