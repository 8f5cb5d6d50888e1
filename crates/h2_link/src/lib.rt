// One HTTP/2 connection as a client keeps it: from bytes to news of its streams, and from placed requests to bytes.
#![tactic(auto)]

mod apply_frame;
mod block;
mod control;
mod drain;
mod effect;
mod fault;
mod feed;
mod judge;
mod laws;
mod link;
mod live;
mod news;
mod receive;
mod send;
mod setting;
mod state;
mod status;
mod waiting;

pub use control::{Control, Controls};
pub use fault::{DrainFault, LinkFault, PlaceFault};
pub use feed::Feed;
pub use laws::{data_keeps_both_windows, pieces_join, sending_keeps_what_was_received};
pub use link::Link;
pub use live::{LiveStream, StreamNumber, WindowSize};
pub use news::{Arrival, Drained, LinkNews};
pub use status::http_status;
