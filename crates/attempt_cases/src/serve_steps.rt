// The attempts that a pass serves, as actions of a session; nothing runs.
ghost use Rattle.attempt_cases.specs.ServeSteps.Follows.{AnswersAreNext, AsksStand, PlacedOnesAgree, PlacesByAgreement, PlacesFollow, ServesByAnswers};
ghost use Rattle.attempt_cases.specs.ServeSteps.Laws.{AsksAgree, AsksFollow};

use crate::settling_keeps::early_goes_on;
use call_actions::calls_apart::{books_are_kept, calls_share_tokens_alone};
use call_actions::calls_in_turn::attempts_keep_turn;
use call_actions::{attempts_are_made_alike, calls_go_on_alike};
use call_cases::other_calls::{calls_stay, others_are_same, sets_stay};
use call_core::{calls_are_kept, calls_go_on, takes_leave_rows};
use channel_actions::kept_sessions::sessions_are_kept;
use channel_actions::link_frames::{actions_make_no_difference, links_stay};
use lb_policy::laws_of_the_table;
use link_actions::reader_actions::readers_come_and_open;
use link_actions::steady_links::placings_keep;
use net_actions::net_frames::nets_stay;
use net_actions::policy_steps_are_actions;
use session_order::{attempts_stir, queues_stir, quiescence_is_exact};

/// The attempt that the channel serves next is the one that asks next, of the current policy (gRPC, "Load Balancing in gRPC"; "gRPC Wait for Ready Semantics").
pub fn asks_follow()
    ensures { AsksFollow }
{
    policy_steps_are_actions();
}

/// It gets the same answer in both, and channel and session agree after it.
pub fn asks_agree()
    ensures { AsksAgree }
{
    actions_make_no_difference();
    calls_stay();
    links_stay();
    policy_steps_are_actions();
    sessions_are_kept();
    sets_stay();
}

/// After it nothing follows but what its answer says, and the pass goes on after the attempt.
pub fn asks_stand()
    ensures { AsksStand }
{
    quiescence_is_exact();
    queues_stir();
}

/// What its answer says is next: the attempt is placed on the link of the subchannel that was picked, which takes attempts in both; or it ends (gRPC, "Load
/// Balancing in gRPC").
pub fn answers_are_next()
    ensures { AnswersAreNext }
{
    quiescence_is_exact();
}

/// Where it is placed, and the placing leaves channel and session in agreement, nothing follows from it, and the pass goes on after it.
pub fn places_by_agreement()
    ensures { PlacesByAgreement }
{
    answers_are_next();
    attempts_stir();
    quiescence_is_exact();
}

/// So it goes out: channel and session agree once it is placed. Of a call that a transparent retry took over nothing was written (gRFC A6, "Transparent Retries"), so
/// all its messages are held for it.
pub fn attempts_go_out()
    ensures agree { PlacedOnesAgree }
    ensures places { PlacesFollow }
{
    actions_make_no_difference();
    attempts_are_made_alike();
    attempts_keep_turn();
    books_are_kept();
    calls_go_on_alike();
    calls_share_tokens_alone();
    calls_stay();
    links_stay();
    nets_stay();
    others_are_same();
    places_by_agreement();
    placings_keep();
    readers_come_and_open();
    sessions_are_kept();
    sets_stay();
}

/// So an attempt that waits is served, where its answer is followed (gRPC, "Load Balancing in gRPC"; "gRPC Wait for Ready Semantics").
pub fn serves_by_answers()
    ensures { ServesByAnswers }
{
    asks_agree();
    asks_follow();
    asks_stand();
    calls_are_kept();
    calls_go_on();
    early_goes_on();
    laws_of_the_table();
    takes_leave_rows();
}
