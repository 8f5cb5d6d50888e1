// What the header list of a request asks of a proxy: a call, or the status with which it is refused.
#![tactic(auto)]

mod head;
mod incoming;
mod pairs;
mod timeout;

pub use incoming::{Incoming, read_request};
pub use timeout::read_timeout;
