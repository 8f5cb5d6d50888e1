// Calls of an application over a channel that a caller can wait on: one in one line, or message by message.
#![tactic(auto)]

mod calls;
mod error;
mod open_call;
mod response;
mod status;
mod whole;

pub use calls::{Received, begin, cancel, finish, next, send};
pub use error::CallError;
pub use open_call::OpenCall;
pub use response::{Response, UnaryResponse};
pub use status::{Status, StatusSource};
pub use whole::{exchange, send_all, unary};
