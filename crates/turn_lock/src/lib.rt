// A lock whose state is a history: handles take turns at it, and each handle knows what it has seen and which entries are its own.
#![tactic(auto)]

mod chronicle;
mod lock;
mod rule;
mod seat;
mod turns;

pub use chronicle::{Chronicle, Job};
pub use lock::{Busy, Front, Held, TurnLock};
pub use seat::Seat;
