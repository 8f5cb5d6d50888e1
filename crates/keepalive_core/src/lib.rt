// Keepalive: finding links on which nothing comes any more.
#![tactic(auto)]

mod check;
mod keepalive;
mod laws;
mod rule;
mod table;

pub use check::{KeepLogFault, check_keep};
pub use keepalive::Keepalive;
pub use laws::{links_are_kept_apart, next_is_the_first};
pub use rule::{KeepEntry, KeepFault, KeepKind, KeepRule, KeepTurn};
pub use table::{KeepTable, KeptLink};
