// What a relay asks of its channel.
ghost use Rattle.std.specs.Prelude.{◌≡◌};
ghost use Rattle.relay_asks.specs.Asking.{stream_of};

use grpc_base::{Octets, Request};

/// What a relay asks of its channel. A call is named by the number of its stream.
#[derive(Debug, Drop)]
pub enum RelayAsk {
    /// A call begins.
    Begin { stream: u32, request: Request },
    /// A message of its request.
    Send { stream: u32, message: Octets },
    /// Its request has no further message.
    Finish { stream: u32 },
    /// Its client gave it up, or broke a rule.
    Cancel { stream: u32 },
}

impl RelayAsk {
    /// The stream that asks.
    pub fn stream(&self) -> u32
        ensures { result ≡ stream_of self.now }
    {
        match self {
            RelayAsk::Begin { stream, request: _ }
            | RelayAsk::Send { stream, message: _ }
            | RelayAsk::Finish { stream }
            | RelayAsk::Cancel { stream } => *stream,
        }
    }
}
