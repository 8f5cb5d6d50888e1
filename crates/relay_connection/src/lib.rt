// The serving side of a relay: one connection of a client, from its bytes to what its calls ask, and from their answers to bytes.
#![tactic(auto)]

mod connection;
mod fault;
mod laws;
mod stream;
mod streams;

pub use connection::RelayConnection;
pub use fault::RelayFault;
pub use laws::{pieces_join, streams_are_apart, streams_rise};
pub use relay_asks::RelayAsk;
pub use stream::RelayStream;
