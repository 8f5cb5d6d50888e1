// What is done to a call is done by actions of a session.
#![tactic(auto)]

mod laws;

pub use laws::{
    attempts_are_cut_alike, attempts_are_made_alike, calls_before_configuration, calls_end_alike,
    calls_go_on_after_ends, calls_go_on_alike, committed_ends_close_calls, final_ends_close_calls,
    refused_attempts_are_retried,
};

pub mod calls_apart;
pub mod calls_in_turn;
pub mod ends_in_order;
pub mod last_ends;
pub mod reads_in_order;
pub mod take_actions;
pub mod takes_apart;
