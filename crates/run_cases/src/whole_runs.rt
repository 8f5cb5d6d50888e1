// Whole runs; nothing runs.
ghost use Rattle.channel_actions.specs.Laws.{EveryRunIsASession};

use crate::known_nets::{known_results_are_answered, take_overs_are_steps};
use crate::known_stages::{
    clocks_and_wishes_are_steps, deadlines_are_done, known_shutdowns_are_answered,
};
use crate::read_out::arrivals_are_answered;
use crate::settling_parts::settlings_stand;
use attempt_cases::call_commits::all_sends_are_answered;
use attempt_cases::dial_events::dials_are_answered;
use attempt_cases::serve_steps::attempts_go_out;
use call_cases::begin_actions::begins_are_answered;
use call_cases::call_ends::late_cancels_are_refused;
use call_cases::call_posts::{finishes_are_answered, takes_are_answered};
use call_cases::ended_calls::open_cancels_are_answered;
use channel_actions::few_calls::links_are_few;
use channel_actions::sound_buffers::buffers_stay_sound;
use channel_actions::{pings_are_queued, runs_are_sessions};
use end_cases::attempt_ends::{one_attempt_ends, runs_rise};
use end_cases::last_hedges::last_is_withheld;
use event_cases::failed_picks::fails_follow;
use event_cases::few_streams::{attempts_are_few, nets_may_ask, streams_are_few};
use event_cases::held_calls::known_drains_are_answered;
use event_cases::lost_links::lost_links_are_answered;
use event_cases::near_deadlines::deadlines_are_near;
use event_cases::result_events::some_results_are_answered;
use frame_cases::broken_links::broken_links_are_handled;
use frame_cases::ended_frames::ended_frames_are_handled;
use frame_cases::first_settings::first_settings_are_handled;
use frame_cases::frame_kinds::frames_by_kinds;
use frame_cases::head_frames::heads_are_handled;
use frame_cases::large_frames::large_frames_are_handled;
use frame_cases::message_frames::messages_are_handled;
use frame_cases::retired_links::retired_links_are_handled;

/// Every run of a channel is a session: its journal and its ledger are those of a list of actions, of the same events. Asked is that its events are such as their types
/// allow.
pub fn every_run_is_a_session()
    ensures { EveryRunIsASession }
{
    all_sends_are_answered();
    arrivals_are_answered();
    attempts_are_few();
    attempts_go_out();
    begins_are_answered();
    broken_links_are_handled();
    buffers_stay_sound();
    clocks_and_wishes_are_steps();
    deadlines_are_done();
    deadlines_are_near();
    dials_are_answered();
    ended_frames_are_handled();
    fails_follow();
    finishes_are_answered();
    first_settings_are_handled();
    frames_by_kinds();
    heads_are_handled();
    known_drains_are_answered();
    known_results_are_answered();
    known_shutdowns_are_answered();
    large_frames_are_handled();
    last_is_withheld();
    late_cancels_are_refused();
    links_are_few();
    lost_links_are_answered();
    messages_are_handled();
    nets_may_ask();
    one_attempt_ends();
    open_cancels_are_answered();
    pings_are_queued();
    retired_links_are_handled();
    runs_are_sessions();
    runs_rise();
    settlings_stand();
    some_results_are_answered();
    streams_are_few();
    take_overs_are_steps();
    takes_are_answered();
}
