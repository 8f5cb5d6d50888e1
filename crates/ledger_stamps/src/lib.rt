// Every write into the ledger. Each stamp is written once: where it stands already, or the place names nothing, nothing changes.
#![tactic(auto)]

mod calls;
mod generations;
mod laws;
mod links;
mod place;
mod rows;

pub use calls::{add_call, configure_call, end_call, note_made};
pub use generations::{activate, add_ask, add_generation, retire};
pub use laws::{
    calls_are_written_once, nets_are_written_once, rows_are_written_once,
    writes_of_an_entry_compose,
};
pub use links::{add_link, link_gone, link_read};
pub use place::index_of;
pub use rows::{add_row, commit_row, end_row, give_stream, place_row};
