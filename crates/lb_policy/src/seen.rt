// What a policy sees of a subchannel.
use grpc_base::Conn;

/// A subchannel as a policy sees it.
#[derive(Clone, Copy, Debug, PartialEq, Eq)]
pub struct SubSeen {
    /// The number of the subchannel.
    pub sub: u32,
    pub state: Conn,
}

impl Default for SubSeen {
    fn default() -> SubSeen {
        SubSeen {
            sub: 0,
            state: Conn::Idle,
        }
    }
}
