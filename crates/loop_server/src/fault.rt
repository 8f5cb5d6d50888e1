// Why the bytes of a link are not taken.
use grpc_base::NoMemory;
use h2_server::LinkFault;

/// Why the bytes of a link are not taken.
#[derive(Clone, Copy, Debug, PartialEq, Eq)]
pub enum ServerFault {
    /// The link is broken with this error code of HTTP/2.
    Broken { code: u32 },
    /// Out of memory.
    NoMemory,
}

impl From<NoMemory> for ServerFault {
    ghost use Rattle.std.specs.Prelude.{◌≡◌};
    ghost use Rattle.loop_server.specs.declared.fault.ServerFault.TheVariants as fault;

    ghost from_gives = { λ _ e. e ≡ fault.NoMemory };

    fn from(_e: NoMemory) -> ServerFault {
        ServerFault::NoMemory
    }
}
