// Messages in the bytes of a stream, both ways.
#![tactic(auto)]

mod frame;
mod laws;
mod next;
mod read;
mod reader;

pub use frame::{FrameFault, frame_message};
pub use laws::{pieces_join, texts_are_messages};
pub use next::MessageFault;
pub use reader::{Fed, MessageReader};
