// Dials, and how attempts are made, asked for and placed, are the actions of a session, in their order; nothing runs.
#![tactic(auto)]

pub mod call_commits;
pub mod dial_events;
pub mod drain_events;
pub mod making_steps;
pub mod net_chains;
pub mod net_settlings;
pub mod net_steps;
pub mod pass_actions;
pub mod round_steps;
pub mod serve_steps;
pub mod settling_keeps;
