// What comes on a link is the actions of a session, frame by frame; nothing runs.
#![tactic(auto)]

pub mod broken_links;
pub mod ended_frames;
pub mod first_settings;
pub mod frame_kinds;
pub mod head_frames;
pub mod large_frames;
pub mod message_frames;
pub mod passed_bytes;
pub mod piece_walks;
pub mod quiet_frames;
pub mod retired_links;
