// Results of the resolver and shutdowns that leave the net as it is; nothing runs.
ghost use Rattle.event_cases.specs.ResultEvents.Laws.{FirstBadConfigsAreAnswered, SecondShutdownsAreAnswered};

use session_order::{boards_stir, quiescence_is_exact};

/// A Shutdown of a channel that was shut down changes nothing; nor does an invalid config, where none was ever held, change policies or subchannels (gRPC,
/// "Service Config in gRPC").
pub fn some_results_are_answered()
    ensures shut { SecondShutdownsAreAnswered }
    ensures bad { FirstBadConfigsAreAnswered }
{
    boards_stir();
    quiescence_is_exact();
}
