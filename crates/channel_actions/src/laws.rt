// What the channel does, as actions of a session; nothing runs.
ghost use Rattle.channel_actions.specs.Laws.{DeadlinesAreAhead, FailedResolutionsAreAnswered, NewChannelsAgree, NoDialsAreAnswered, NothingIsDue, PingsAreQueued, RefusalsAreAnswered, RefusedDialsAreAnswered, RunsAreSessions, TicksAreAnswered};
ghost use Rattle.channel_actions.specs.Stages.{Closings, Openings};

use crate::going_calls::calls_of_channels_go_on;
use crate::kept_calls::calls_are_kept;
use crate::own_links::links_are_own;
use crate::sound_buffers::buffers_stay_sound;
use crate::sound_calls::calls_stay_sound;
use link_actions::pings_are_actions;
use net_actions::{
    new_nets_are_new_sessions, policy_steps_are_actions, subchannel_steps_are_actions,
};
use session_order::{entries_rest, links_stir, quiescence_is_exact};

/// A new channel agrees with a new session.
pub fn new_channels_are_new_sessions()
    ensures { NewChannelsAgree }
{
    new_nets_are_new_sessions();
}

/// Channel and session agree on an entry that opens, and after one that closes, with each link that is gone stamped in both.
pub fn entries_open_and_close()
    ensures opens { Openings }
    ensures closes { Closings }
{
    quiescence_is_exact();
    entries_rest();
}

/// An event that brings no more than its answer is answered alike: refused, a Tick, a resolution that failed, a dial where none is to be made, and
/// a dial that is not under way.
pub fn plain_events_are_answered()
    ensures refused { RefusalsAreAnswered }
    ensures tick { TicksAreAnswered }
    ensures unresolved { FailedResolutionsAreAnswered }
    ensures dial { NoDialsAreAnswered }
    ensures refused_dial { RefusedDialsAreAnswered }
{
    subchannel_steps_are_actions();
}

/// A PING of the environment is queued on its link in both, and nothing follows from it.
pub fn pings_are_queued()
    ensures { PingsAreQueued }
{
    quiescence_is_exact();
    links_stir();
    pings_are_actions();
}

/// Where by the session no deadline has come, no call ends by one; and where nothing is due by it, the channel settles as it is, and the entry closes.
pub fn nothing_due_stays()
    ensures deadline { DeadlinesAreAhead }
    ensures settling { NothingIsDue }
{
    policy_steps_are_actions();
    subchannel_steps_are_actions();
}

/// Every run of a channel is a session, where what is left of the stages of an entry is: its journal and its ledger are those of a list of actions, of
/// the same events.
pub fn runs_are_sessions()
    ensures { RunsAreSessions }
{
    new_channels_are_new_sessions();
    entries_open_and_close();
    policy_steps_are_actions();
    subchannel_steps_are_actions();
    calls_of_channels_go_on();
    calls_stay_sound();
    buffers_stay_sound();
    calls_are_kept();
    links_are_own();
}
