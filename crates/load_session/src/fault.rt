// Why a session was not played to its end.
use grpc_base::NoMemory;

/// Why a session was not played to its end.
#[derive(Clone, Copy, Debug, PartialEq, Eq)]
pub enum LoadFault {
    /// Out of memory.
    NoMemory,
    /// The journal has no room for an event.
    SessionFull,
}

impl From<NoMemory> for LoadFault {
    ghost use Rattle.std.specs.Prelude.{◌≡◌};
    ghost use Rattle.load_session.specs.declared.fault.LoadFault.TheVariants as fault;

    ghost from_gives = { λ _ e. e ≡ fault.NoMemory };

    fn from(_e: NoMemory) -> LoadFault {
        LoadFault::NoMemory
    }
}
