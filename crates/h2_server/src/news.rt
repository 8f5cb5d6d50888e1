// What a link reports to its caller.
use grpc_base::{Fields, Octets};

/// News of a link's requests. A stream is named by its number.
#[derive(Debug, Drop)]
pub enum RequestNews {
    /// A whole header block, without or with END_STREAM: the first of its stream opens it, the second one is trailers.
    Fields {
        stream: u32,
        fields: Fields,
        end: bool,
    },
    /// The bytes of one DATA frame, without its padding, without or with END_STREAM.
    Data {
        stream: u32,
        octets: Octets,
        end: bool,
    },
    /// The client reset the stream with this code.
    Reset {
        stream: u32,
        code: u32,
    },
    /// A stream error of the client, for which the stream is reset with this code.
    Fault {
        stream: u32,
        code: u32,
    },
    /// The link is broken with this code.
    Broken {
        code: u32,
    },
}

/// What one call of `arrived` took, and what it reported.
#[derive(Debug, Drop)]
pub struct Arrival {
    /// How many bytes of the piece were taken.
    pub taken: usize,
    /// The news of the one frame that these bytes ended, or of the fault that they show, if there are any.
    pub news: Option<RequestNews>,
}
