// One use of a load balancing policy.
use attempt_ledger::Generation;
use grpc_base::{Address, Items};

/// One use of a load balancing policy, a generation, with the addresses that it was given. Generations are numbered from 1.
#[derive(Debug, Drop)]
pub struct PolicyUse {
    pub number: u32,
    pub generation: Generation,
    pub addresses: Items<Address>,
    /// The subchannels of its view that failed and were not READY since.
    pub failed: Items<u32>,
}
