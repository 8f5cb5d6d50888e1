// What one stream of a relay answers: from the items of a call's response to its frames.
#![tactic(auto)]

mod laws;
mod parts;
mod stream;
mod waiting;

pub use laws::sends_what_was_given;
pub use parts::{Part, Parts};
pub use stream::AnsweringStream;
pub use waiting::WaitingText;
