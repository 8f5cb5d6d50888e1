// In which order the actions of a session come: when nothing follows at once, and which of its lines each action may stir.
#![tactic(auto)]

mod laws;
mod line;

pub use laws::{
    applications_stir, attempts_stir, boards_stir, calls_stir, entries_end_where_nothing_waits,
    entries_rest, entries_stir, links_stir, policies_stir_apart, queues_stir, quiescence_is_exact,
    sessions_are_in_place,
};
pub use line::Line;

pub mod config_stirs;
pub mod session_laws;
