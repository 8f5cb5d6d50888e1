// Why a dial is no link.
use grpc_base::Refusal;

/// Why a dial is no link.
#[derive(Clone, Copy, Debug, PartialEq, Eq)]
pub enum LinkFault {
    /// The subchannel is not there, or has no dial that was taken.
    Refused(Refusal),
    NoMemory,
}
