// Subchannels: one connection each, with its backoff, and the board of all that a channel made.
#![tactic(auto)]

mod board;
mod keep;
mod next;
mod phase;
mod runs;
mod scan;
mod sub;

pub use board::Board;
pub use runs::laws_of_runs;
pub use sub::{NotDialing, Subchannel};
