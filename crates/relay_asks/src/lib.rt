// What one stream of a relay asks of its channel: the call, its messages, their end, and that it is given up.
#![tactic(auto)]

mod ask;
mod laws;
mod stream;

pub use ask::RelayAsk;
pub use laws::asks_are_the_request;
pub use stream::AskingStream;
