// Whole events of links and of the net, and the attempts that end with them, are the actions of a session, in their order; nothing runs.
#![tactic(auto)]

pub mod config_reads;
pub mod drained_calls;
pub mod drained_lines;
pub mod failed_picks;
pub mod few_streams;
pub mod first_shutdowns;
pub mod generation_stamps;
pub mod held_calls;
pub mod held_kinds;
pub mod held_results;
pub mod left_links;
pub mod lost_links;
pub mod near_deadlines;
pub mod net_results;
pub mod passed_at_once;
pub mod result_events;
pub mod streamed_calls;
pub mod take_overs;
pub mod written_responses;
