// Results of the resolver, take-overs and wishes, with what runs keep; nothing runs.
ghost use Rattle.run_cases.specs.KnownNets.Laws.{KnownResultsAreAnswered};
ghost use Rattle.call_cases.specs.SettlingActions.Steps.{NetSteps};

use crate::known_stages::picks_are_there;
use channel_actions::own_links::links_are_own;
use channel_actions::their_links::links_are_theirs;
use event_cases::held_kinds::held_kinds_are_there;
use event_cases::held_results::held_results_are_answered;
use event_cases::left_links::left_links_are_stamped;
use event_cases::take_overs::nets_are_settled;

/// In a settling a pending policy takes over, where it may, and wished subchannels connect, until neither is left ("gRPC Connectivity Semantics and API"; "Load
/// Balancing in gRPC").
pub fn take_overs_are_steps()
    ensures { NetSteps }
{
    left_links_are_stamped();
    links_are_own();
    links_are_theirs();
    nets_are_settled();
    picks_are_there();
}

/// A result of the resolver after which a config is held is answered alike by channel and session ("Service Config in gRPC"; "Load Balancing in gRPC").
pub fn known_results_are_answered()
    ensures { KnownResultsAreAnswered }
{
    held_kinds_are_there();
    held_results_are_answered();
    left_links_are_stamped();
    picks_are_there();
}
