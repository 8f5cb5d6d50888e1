// What every session keeps of calls before their first attempt; nothing runs.
ghost use Rattle.channel_actions.specs.KeptCalls.Laws.{UnconfiguredHaveNoAttempts, EarlyAlong, EarlyBegins, EarlyStays, FramesAreFresh};

use crate::kept_sessions::sessions_are_kept;

/// What a session keeps of calls before their first attempt, of resets and of links holds of a new session, after each action that is next, and so after
/// every list of actions. An open call without a config is without attempts then; and a frame that is read next ends after all that an end saw of its link.
pub fn calls_are_kept()
    ensures begins { EarlyBegins }
    ensures stays { EarlyStays }
    ensures along { EarlyAlong }
    ensures awaiting_config { UnconfiguredHaveNoAttempts }
    ensures fresh { FramesAreFresh }
{
    sessions_are_kept();
}
