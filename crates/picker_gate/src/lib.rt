// Ordered sets of pairs of numbers: the queue of attempts that wait for a pick, and timers by their moments.
#![tactic(auto)]

mod gate;
mod timers;

pub use gate::Gate;
pub use timers::Timers;
