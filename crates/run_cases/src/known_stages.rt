// Stages of an entry, with what runs keep; nothing runs.
ghost use Rattle.channel_actions.specs.Stages.{Deadlines};
ghost use Rattle.run_cases.specs.KnownStages.Laws.{KnownShutdownsAreAnswered, PicksAreThere, WishSteps};
ghost use Rattle.call_cases.specs.SettlingActions.Steps.{ClockSteps};

use attempt_cases::net_settlings::net_settles;
use call_cases::ended_calls::deadlines_are_met;
use channel_actions::own_links::links_are_own;
use event_cases::first_shutdowns::first_shutdowns_are_answered;

/// The last pick request of a session, where it was answered with a subchannel, was answered with one that was made.
pub fn picks_are_there()
    ensures { PicksAreThere }
{}

/// Calls whose deadline has come end, the earliest first, before the event of an entry is applied (gRPC, "Core concepts": Deadlines/Timeouts).
pub fn deadlines_are_done()
    ensures { Deadlines }
{
    deadlines_are_met();
}

/// A Shutdown of an open channel ends all its calls, and is answered ("gRPC Connectivity Semantics and API": SHUTDOWN).
pub fn known_shutdowns_are_answered()
    ensures { KnownShutdownsAreAnswered }
{
    first_shutdowns_are_answered();
}

/// In a settling dials that took too long are given up and backoffs end ("Connection Backoff Protocol"); and IDLE subchannels that a policy wishes connect, where no
/// policy may take over ("gRPC Connectivity Semantics and API").
pub fn clocks_and_wishes_are_steps()
    ensures clock { ClockSteps }
    ensures wishes { WishSteps }
{
    net_settles();
    links_are_own();
}
