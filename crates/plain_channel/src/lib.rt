// A channel over policies that are in no box, for tests and for programs that try rows.
#![tactic(auto)]

mod channel;
mod plain;

pub use channel::{AUTHORITY, Unmade, new_channel, plain_policies};
pub use plain::Plain;
