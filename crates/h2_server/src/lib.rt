// One HTTP/2 connection as a server keeps it: from bytes to news of its requests, and from responses to bytes.
#![tactic(auto)]

mod apply_frame;
mod block;
mod control;
mod effect;
mod fault;
mod judge;
mod laws;
mod link;
mod live;
mod news;
mod preface;
mod receive;
mod send;
mod setting;
mod share;
mod state;

pub use control::{Control, Increment};
pub use fault::LinkFault;
pub use laws::{data_keeps_both_windows, pieces_join};
pub use link::ServerLink;
pub use live::{LiveStream, StreamNumber};
pub use news::{Arrival, RequestNews};
pub use share::Share;
