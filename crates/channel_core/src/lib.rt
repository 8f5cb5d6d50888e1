// The channel as one pure step: an event in, a reply out, and everything kept in journal and ledger.
#![tactic(auto)]

mod bytes_of;
mod channel;
mod kept;
mod state;

pub use attempt_ledger::{Journal, Ledger};
pub use channel::{ChannelCore, CoreError};
