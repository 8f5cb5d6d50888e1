// What policies and subchannels do one after another; nothing runs.
ghost use Rattle.attempt_cases.specs.NetChains.Laws.{ChainsAreNext};

use session_order::{boards_stir, policies_stir_apart, quiescence_is_exact};

/// Policies that are retired, begin and get addresses, and subchannels that are shut and added with them, are the next actions of the session, where nothing
/// follows of calls and links; and after them nothing follows at once ("Load Balancing in gRPC"; "gRPC Connectivity Semantics and API").
pub fn chains_are_next()
    ensures { ChainsAreNext }
{
    boards_stir();
    quiescence_is_exact();
    policies_stir_apart();
}
