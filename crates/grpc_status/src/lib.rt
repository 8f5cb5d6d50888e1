// The status that an attempt ends with, read from what the peer sent.
#![tactic(auto)]

mod maps;
mod message;

pub use maps::{of_http, of_reset, of_text};
pub use message::message_text;
