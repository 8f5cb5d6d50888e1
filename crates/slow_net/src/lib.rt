// Policies, subchannels and refusals of a session, computed as the definitions say them: which policy is current and in which state, what it answers
// to a pick request, what subchannels do next, and what an event is refused for.
#![tactic(auto)]

mod policies;
mod queue;
mod refusals;
mod subchannels;
mod table;
mod views;

pub use policies::{
    channel_state, current_policy, has_live_kind, is_live_policy, is_pending, listed,
    next_take_over, pending_policy,
};
pub use queue::next_asked;
pub use refusals::{is_gone, refusal_of};
pub use subchannels::{
    next_added, next_connected, next_of_clock, next_of_links, next_shut, take_dial,
};
pub use table::{is_one_of, is_open, is_ready};
pub use views::{
    is_same_address, is_same_kind, is_shutdown, pick_of, policy_state, view_of, wish_of,
};
