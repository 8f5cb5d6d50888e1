//! One HTTP/2 stream as an endpoint keeps it: its state and its two flow-control windows (RFC 9113, sections 5.1, 5.2
//! and 6.9).
#![tactic(auto)]

mod fault;
pub mod laws;
mod state;
mod stream;

pub use fault::StreamFault;
pub use grpc_base::error_code;
pub use state::StreamState;
pub use stream::Stream;
