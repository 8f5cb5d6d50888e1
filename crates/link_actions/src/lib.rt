// What is read and written on a link of the channel is what actions of a session read and write.
#![tactic(auto)]

mod laws;

pub use laws::{
    control_frames_are_actions, drains_are_actions, ends_are_actions, pings_are_actions,
    reading_is_actions, writing_is_actions,
};

pub mod loss_actions;
pub mod loss_order;
pub mod reader_actions;
pub mod reset_actions;
pub mod response_actions;
pub mod steady_links;
pub mod stream_actions;
