// Why the calls of a relay's connection are refused.
use grpc_base::NoMemory;

/// Why a call of a relay's connection is refused.
#[derive(Clone, Copy, Debug, PartialEq, Eq)]
pub enum RelayFault {
    /// The client's bytes broke the protocol, with this error code of HTTP/2.
    Broken { code: u32 },
    /// The room is below 16,393 bytes, which the largest frame takes.
    RoomTooSmall,
    /// Out of memory.
    NoMemory,
}

impl From<NoMemory> for RelayFault {
    ghost use Rattle.std.specs.Prelude.{◌≡◌};
    ghost use Rattle.relay_connection.specs.declared.fault.RelayFault.TheVariants as fault;

    ghost from_gives = { λ _ e. e ≡ fault.NoMemory };

    fn from(_e: NoMemory) -> RelayFault {
        RelayFault::NoMemory
    }
}
