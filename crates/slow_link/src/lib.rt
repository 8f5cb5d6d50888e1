// Plain slow programs over one link: each computes the definition of `session_actions` that has its name.
#![tactic(auto)]

mod blocks;
mod fields;
mod frames;
mod link_rules;
mod links;
mod messages;
mod reading;
mod responses;
mod settings;
mod windows;
mod writing;

pub use frames::{
    data_frame, frame_copy, headers_frame, ping_ack, ping_frame, rst_stream_frame, settings_ack,
    window_update_frame,
};
pub use link_rules::{is_outstanding, is_outstanding_on, link_error};
pub use links::{has_flag, has_settings, has_written_end, is_retiring, is_settings, read_bytes};
pub use reading::next_read;
pub use responses::{no_response, response_in, traffic_by};
pub use settings::{initial_window, setting, settings_of};
pub use windows::{increment, last_stream, opened_streams, ping_word, reset_code, room, used};
pub use writing::{bytes_of, controls_written, has_begun, next_control, next_stream, owes_update};
