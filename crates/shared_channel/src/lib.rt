// One channel for all threads: its core under a lock at which handles take turns.
#![tactic(auto)]

mod bell;
mod channel;
mod channel_seat;
mod jobs;
mod origin;
mod owed;
mod reading;
mod shared;
mod take;
mod tally;
mod watched;

pub use channel::SharedChannel;
pub use channel_seat::ChannelSeat;
pub use origin::Origin;
pub use reading::Reading;
pub use shared::{Seat, Shared};
pub use take::TakeFuture;
