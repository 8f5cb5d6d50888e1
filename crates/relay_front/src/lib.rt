// A relay before a channel: it takes a client's gRPC calls and makes each of them through the channel.
#![tactic(auto)]

mod ends;
mod links;
mod relay_core;
mod turned;
mod turns;

pub use ends::relay_close;
pub use links::{LinkEnd, relay_link};
pub use relay_connection::{RelayAsk, RelayFault, pieces_join, streams_are_apart, streams_rise};
pub use relay_core::RelayCore;
pub use turned::RelayTurn;
pub use turns::relay_turn;
