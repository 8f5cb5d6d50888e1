// A subchannel: one address, and the connection to it.
use grpc_base::{Address, Conn};

/// A subchannel. Subchannels are numbered from 1.
#[derive(Clone, Copy, Debug, PartialEq, Eq)]
pub struct Subchannel {
    pub number: u32,
    pub address: Address,
    pub state: Conn,
    /// How many dials were taken since it was READY.
    pub dials: u32,
    /// In TRANSIENT_FAILURE: the moment at which it becomes IDLE. In any other state what the last dial left.
    pub again: Option<u64>,
    /// The moment at which the dial that was taken is given up, until it is over.
    pub until: Option<u64>,
    /// The number of its link.
    pub link: Option<u32>,
}
