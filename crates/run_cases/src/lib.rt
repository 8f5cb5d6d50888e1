// Every run of a channel is a session: its stages, and their parts; nothing runs.
#![tactic(auto)]

pub mod known_nets;
pub mod known_stages;
pub mod read_out;
pub mod settling_parts;
pub mod whole_runs;
