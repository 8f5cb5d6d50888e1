// Why a call of a link is refused.
use grpc_base::NoMemory;

/// Why bytes are not taken.
#[derive(Clone, Copy, Debug, PartialEq, Eq)]
pub enum LinkFault {
    /// The link is broken.
    Gone,
    /// Out of memory.
    NoMemory,
}

/// Why a tag is not placed.
#[derive(Clone, Copy, Debug, PartialEq, Eq)]
pub enum PlaceFault {
    /// The link is broken, or the peer's GOAWAY retired it.
    Gone,
    /// Out of memory.
    NoMemory,
}

/// Why nothing is drained.
#[derive(Clone, Copy, Debug, PartialEq, Eq)]
pub enum DrainFault {
    /// The link is broken.
    Gone,
    /// The room is below 16,393 bytes, those of the longest frame.
    RoomTooSmall,
    /// Out of memory.
    NoMemory,
}

impl From<NoMemory> for LinkFault {
    ghost use Rattle.std.specs.Prelude.{◌≡◌};
    ghost use Rattle.h2_link.specs.declared.fault.LinkFault.TheVariants as fault;

    ghost from_gives = { λ _ e. e ≡ fault.NoMemory };

    fn from(_e: NoMemory) -> LinkFault {
        LinkFault::NoMemory
    }
}

impl From<NoMemory> for PlaceFault {
    ghost use Rattle.std.specs.Prelude.{◌≡◌};
    ghost use Rattle.h2_link.specs.declared.fault.PlaceFault.TheVariants as fault;

    ghost from_gives = { λ _ e. e ≡ fault.NoMemory };

    fn from(_e: NoMemory) -> PlaceFault {
        PlaceFault::NoMemory
    }
}

impl From<NoMemory> for DrainFault {
    ghost use Rattle.std.specs.Prelude.{◌≡◌};
    ghost use Rattle.h2_link.specs.declared.fault.DrainFault.TheVariants as fault;

    ghost from_gives = { λ _ e. e ≡ fault.NoMemory };

    fn from(_e: NoMemory) -> DrainFault {
        DrainFault::NoMemory
    }
}
