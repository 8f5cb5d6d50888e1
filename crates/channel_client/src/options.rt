// What a channel is opened with, and how a run over it ended.
use grpc_base::Octets;
use keepalive_core::KeepRule;
use resolver_core::Target;

/// What a channel is opened with.
#[derive(Debug, Drop)]
pub struct ChannelOptions {
    /// Where the service is: a list of addresses, or a name that is looked up.
    pub target: Target,
    /// The service config as JSON, where there is one ("Service Config in gRPC").
    pub config: Option<Octets>,
    /// How many threads keep links open, from 1 to 4.
    pub nets: u32,
    /// When links are pinged, where they are.
    pub keep: Option<KeepRule>,
    /// The seed of the random choices.
    pub seed: u64,
}

/// How a run over a channel ended.
#[derive(Clone, Copy, Debug, PartialEq, Eq)]
pub enum Ended {
    /// The work was done, and the channel was shut down after it.
    Shut,
    /// The session had no room for an event of the channel itself, or there was no memory for one. The calls that were open then were
    /// answered so.
    Stopped,
}
