// The calls of a relay's connection at its channel: what is asked is posted, what waits is kept, and what comes is taken.
#![tactic(auto)]

mod call;
mod calls;
mod fault;
mod takes;

pub use call::RelayCall;
pub use calls::RelayCalls;
pub use fault::CallsFault;
