// What a result, a take-over and a shutdown make of policies and subchannels; nothing runs.
ghost use Rattle.event_cases.specs.NetResults.Laws.{ResultsAreNext, ShutdownsAreNext, TakeOversAreNext};

use attempt_cases::net_chains::chains_are_next;
use net_actions::policies_come_and_go;
use session_order::{policies_stir_apart, quiescence_is_exact};

/// After a result of the resolver, in a take-over and after a shutdown, the session's next actions make of policies and subchannels what one step of the net
/// does ("gRPC Connectivity Semantics and API"; "Load Balancing in gRPC").
pub fn results_are_next()
    ensures result_taken { ResultsAreNext }
    ensures over { TakeOversAreNext }
    ensures shut { ShutdownsAreNext }
{
    quiescence_is_exact();
    chains_are_next();
    policies_come_and_go();
    policies_stir_apart();
}
