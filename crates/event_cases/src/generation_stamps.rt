// What becomes of the stamps of policies; nothing runs.
ghost use Rattle.event_cases.specs.GenerationStamps.Laws.{GenerationsAlong, ResultsStampAlike, TakeOversStampAlike};

use channel_net::laws_of_generations;

/// Of the session alone: policies that are to be retired are, and one of the wanted kind begins where none is live ("Load Balancing in gRPC").
pub fn generations_go_along()
    ensures { GenerationsAlong }
{}

/// A result of the resolver and a take-over stamp policies in the ledger of a channel as in a session ("Load Balancing in gRPC").
pub fn stamps_are_alike()
    ensures result_taken { ResultsStampAlike }
    ensures over { TakeOversStampAlike }
{
    laws_of_generations();
}
