// The workers at the edge: they move bytes between a channel and its links, and make calls.
#![tactic(auto)]

mod calls;
mod dial;
mod link_turn;
mod pumped;
mod pumps;
mod rounds;
mod tick;

pub use calls::call_worker;
pub use dial::{DialTurn, dial_once};
pub use pumped::Pumped;
pub use pumps::{pump_in, pump_out};
pub use rounds::net_worker;
pub use tick::tick_if_due;
