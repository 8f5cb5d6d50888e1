// HTTP/2 frames both ways: the frame at the start of some bytes, and the bytes of a frame.
#![tactic(auto)]

pub mod flags;
mod frame;
pub mod kinds;
mod laws;
mod part;
mod payload;
mod read;
mod rules;
mod sent;
pub mod settings;
mod write;

pub use frame::{Frame, FrameStep};
pub use grpc_base::error_code;
pub use laws::{
    numbers_are_the_standards, one_reading, pieces_join, sent_frames_are_frames, table_is_grammar,
    words_are_written_back, written_is_read_again,
};
pub use payload::{Setting, next_setting};
pub use read::{fault_place, next_frame};
pub use rules::PAYLOAD_LIMIT;
pub use sent::{
    write_data, write_headers, write_ping, write_ping_ack, write_rst_stream, write_settings,
    write_settings_ack, write_window_update,
};
pub use write::{FrameHeader, HEADER_SIZE, write_frame, write_header};
