// Plays the session of a load in memory, one channel and one scripted server on both of its links, and sums it up.
#![tactic(auto)]

mod ends;
mod fault;
mod play;
mod rows;
mod sides;
mod summary;

pub use ends::Outcome;
pub use fault::LoadFault;
pub use summary::summarize;
