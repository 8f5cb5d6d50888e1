// The end of a call without an attempt, as a case of the end of any call; nothing runs.
ghost use Rattle.call_cases.specs.EndsWithoutAttempts.Laws.{EndsWithoutAttemptsFollow};

use session_order::calls_stir;

/// Where any call ends alike in channel and session, so does one without an attempt.
pub fn calls_without_attempts_end()
    ensures { EndsWithoutAttemptsFollow }
{
    calls_stir();
}
