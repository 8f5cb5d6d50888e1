// The resolver of a name: when it is looked up, what a lookup brings, and what the channel is given of it.
#![tactic(auto)]

mod job;
mod lookup;
mod memory;
mod noted;
mod standard;
mod watch;
mod worlds;

pub use job::{DnsOnce, dns_once};
pub use lookup::{Looked, Lookup};
pub use memory::MemLookup;
pub use standard::StdLookup;
pub use watch::{DnsAnswer, DnsWatch};
pub use worlds::{MemNamedWorld, NamedWorld, TcpNamedWorld};
