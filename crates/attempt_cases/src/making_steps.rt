// The attempts of a round, as actions of a session; nothing runs.
ghost use Rattle.attempt_cases.specs.MakingSteps.Laws.{AttemptsGetRows, MakesByCases, OneIsMade, OneIsWithheld, RoundsMake};

use crate::settling_keeps::early_goes_on;
use call_actions::calls_apart::{books_are_kept, calls_share_tokens_alone};
use call_actions::calls_go_on_alike;
use call_actions::calls_in_turn::{attempts_keep_turn, posts_keep_order};
use call_cases::other_calls::{calls_stay, others_are_same, sets_stay};
use call_core::{calls_are_kept, calls_go_on, takes_leave_rows};
use channel_actions::kept_sessions::sessions_are_kept;
use channel_actions::link_frames::{actions_make_no_difference, links_stay};
use net_actions::net_frames::nets_stay;
use net_actions::{policy_steps_are_actions, subchannel_steps_are_actions};
use session_order::{attempts_stir, queues_stir, quiescence_is_exact};

/// An attempt that is due is made: it has its row and waits for a pick in both (gRFC A6, "Retry Policy" and "Hedging Policy").
pub fn attempts_get_rows()
    ensures { AttemptsGetRows }
{
    attempts_keep_turn();
    books_are_kept();
    calls_go_on_alike();
    calls_share_tokens_alone();
}

/// Where an attempt is due that is made, the channel makes it, channel and session agree after it, nothing follows at once, and no attempt of the call is due
/// any more.
pub fn one_is_made()
    ensures { OneIsMade }
{
    actions_make_no_difference();
    attempts_get_rows();
    attempts_stir();
    calls_go_on_alike();
    calls_stay();
    quiescence_is_exact();
    links_stay();
    nets_stay();
    others_are_same();
    policy_steps_are_actions();
    sessions_are_kept();
    sets_stay();
    subchannel_steps_are_actions();
}

/// Where a hedge is withheld, since too few tokens are left, while others of its call go on, so does the channel ("Throttling Retry Attempts and Hedged RPCs").
pub fn one_is_withheld()
    ensures { OneIsWithheld }
{
    actions_make_no_difference();
    books_are_kept();
    calls_go_on_alike();
    calls_share_tokens_alone();
    calls_stay();
    quiescence_is_exact();
    links_stay();
    nets_stay();
    others_are_same();
    policy_steps_are_actions();
    posts_keep_order();
    queues_stir();
    sessions_are_kept();
    sets_stay();
    subchannel_steps_are_actions();
}

/// So whatever is due of a call is done alike, where a hedge that is withheld when none of its call goes on is.
pub fn makes_by_cases()
    ensures { MakesByCases }
{
    one_is_made();
    one_is_withheld();
}

/// The attempts of a round are those that are due, call by call.
pub fn rounds_make()
    ensures { RoundsMake }
{
    calls_are_kept();
    calls_go_on();
    early_goes_on();
    takes_leave_rows();
}
