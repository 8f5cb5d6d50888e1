// Header lists of requests, and what the header lists of responses mean.
#![tactic(auto)]

mod binary;
mod laws;
mod request;
mod response;
mod retry;
mod timeout;

pub use laws::base64_is_read_exactly;
pub use request::request_fields;
pub use response::shown;
pub use retry::pushback;
pub use timeout::{TimeoutText, timeout_text};
