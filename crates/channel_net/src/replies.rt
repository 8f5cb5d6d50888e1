// What a net answers.
use grpc_base::{Address, Pick};

/// A dial that was taken.
#[derive(Clone, Copy, Debug, PartialEq, Eq)]
pub struct Dialing {
    /// The number of the subchannel.
    pub sub: u32,
    pub address: Address,
    /// The moment at which it is given up, in nanoseconds.
    pub until: u64,
    /// Whether a word spread its wait: it is not the first dial since the subchannel was last READY.
    pub drew: bool,
}

/// An answered pick request.
#[derive(Clone, Copy, Debug, PartialEq, Eq)]
pub struct Asked {
    /// The generation that answered.
    pub generation: u32,
    pub pick: Pick,
}
