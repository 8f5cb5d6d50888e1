// Plain slow programs of how calls end, what is accepted and delivered, and what links send, each of which computes one
// definition of `session_actions`.
#![tactic(auto)]

mod call_ends;
mod deliveries;
mod wire;
mod writing;

pub use call_ends::{
    is_after_event, lacks_config, next_cancelled, next_deadline, next_long_request,
    next_long_response, next_over, next_shut_down,
};
pub use deliveries::{next_item, send_action, take_action};
pub use wire::{next_frame_read, next_written, owed_for};
pub use writing::{first_waiting, sendable};
