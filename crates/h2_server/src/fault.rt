// Why a call of a link is refused.
use grpc_base::NoMemory;

/// Why bytes are not taken.
#[derive(Clone, Copy, Debug, PartialEq, Eq)]
pub enum LinkFault {
    /// The link is broken with this code.
    Broken { code: u32 },
    /// Out of memory.
    NoMemory,
}

impl From<NoMemory> for LinkFault {
    ghost use Rattle.std.specs.Prelude.{◌≡◌};
    ghost use Rattle.h2_server.specs.declared.fault.LinkFault.TheVariants as fault;

    ghost from_gives = { λ _ e. e ≡ fault.NoMemory };

    fn from(_e: NoMemory) -> LinkFault {
        LinkFault::NoMemory
    }
}
