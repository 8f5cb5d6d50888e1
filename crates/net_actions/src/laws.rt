// What is done to a net, as actions of a session; nothing runs.
ghost use Rattle.net_actions.specs.Laws.{AsksAreAnswered, ClockChanges, ClockRests, DialsAreLinks, DialsAreTaken, DialsFail, LinksGo, NoneConnects, NewOnesAgree, NoneToDial, SettingsCome, StatesAreSame, TakeOversAreSame, WishesConnect};
ghost use Rattle.net_actions.specs.Runs.{ClocksKeepOrder, NetsAreOrderly, ShutsAll, TakeOversKeepOrder, TakesOver, TakesResult, WishesKeepOrder};

use channel_net::laws_of_generations;

/// What happens to one subchannel is the same in the session and in the net ("gRPC Connectivity Semantics and API"; gRPC, "Connection Backoff Protocol"). It is a dial that is taken, fails or is a link, SETTINGS
/// that come, a link that goes, what the clock changes,
/// and a connection that a policy wishes.
pub fn subchannel_steps_are_actions()
    ensures taken { DialsAreTaken }
    ensures none { NoneToDial }
    ensures failed { DialsFail }
    ensures up { DialsAreLinks }
    ensures settings { SettingsCome }
    ensures link { LinksGo }
    ensures clock { ClockChanges }
    ensures rest { ClockRests }
    ensures wish { WishesConnect }
    ensures no_wish { NoneConnects }
{}

/// The state of the current policy, a pick request of it, and when a pending one takes over, are the same in the session and in the net ("Load Balancing in gRPC";
/// "gRPC Connectivity Semantics and API").
pub fn policy_steps_are_actions()
    ensures state { StatesAreSame }
    ensures ask { AsksAreAnswered }
    ensures over { TakeOversAreSame }
{}

/// A new net is what a new session has done.
pub fn new_nets_are_new_sessions()
    ensures { NewOnesAgree }
{}

/// The addresses of a net that came of calls stand once in each of its lists, and have one live subchannel, as no other address has; and each round in which a
/// net settles leaves it so. A take-over asks for this.
pub fn nets_are_orderly()
    ensures nets { NetsAreOrderly }
    ensures clock { ClocksKeepOrder }
    ensures over { TakeOversKeepOrder }
    ensures wish { WishesKeepOrder }
{}

/// A result of the resolver, a take-over and a shutdown ("gRPC Connectivity Semantics and API"; "Load Balancing in gRPC"): the actions that follow one another in the session make
/// the same of its policies and subchannels as one step of the net.
pub fn policies_come_and_go()
    ensures result_taken { TakesResult }
    ensures over { TakesOver }
    ensures shut { ShutsAll }
{
    laws_of_generations();
}
