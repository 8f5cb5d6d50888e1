// The messages of a call, framed and held once, and how far each of its attempts has sent them.
#![tactic(auto)]

mod buffer;
mod cursors;
mod messages;
mod state;

pub use buffer::{Buffer, PushFault, Pushed};
