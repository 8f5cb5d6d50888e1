// A result of the resolver after which a config is held; nothing runs.
ghost use Rattle.event_cases.specs.HeldResults.Laws.{HeldResultsAreAnswered};

use attempt_cases::net_chains::chains_are_next;
use channel_net::laws_of_generations;

/// A result of the resolver after which a config is held is answered alike by channel and session, where the ledger has the same stamps of links ("Service Config in
/// gRPC"; "Load Balancing in gRPC"; "gRPC Connectivity Semantics and API").
pub fn held_results_are_answered()
    ensures { HeldResultsAreAnswered }
{
    chains_are_next();
    laws_of_generations();
}
