// What is promised of every session; nothing runs.
ghost use Rattle.channel_top.specs.Promise.{ChannelsKeepThePromise};

use run_cases::whole_runs::every_run_is_a_session;
use session_actions::posts_decide;

/// Whatever events a new channel is given, one after another and each where its journal has room, its journal and its ledger are those
/// of one list of actions of the definition, and of no other.
pub fn sessions_keep_the_promise()
    ensures { ChannelsKeepThePromise }
{
    every_run_is_a_session();
    posts_decide();
}
