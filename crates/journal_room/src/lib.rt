// Room in a journal: each entry was made where there was room for its event.
#![tactic(auto)]

mod posted;
mod rooms;

pub use posted::keeps_its_types;
pub use rooms::entries_find_room;
