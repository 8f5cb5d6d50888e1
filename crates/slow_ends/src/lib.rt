// Plain slow programs of how attempts are made, end, and get their calls, each of which computes one definition of
// `session_actions`.
#![tactic(auto)]

mod attempt_ends;
mod commitments;
mod making;
mod resets;
mod streams;

pub use attempt_ends::{end_of, next_cut, next_wire_end, pick_end};
pub use commitments::{furthest, next_final, next_headed, next_inherited, next_overflow};
pub use making::{next_due_attempt, next_transparent};
pub use resets::next_reset;
pub use streams::{
    accepted_bytes, drained, earlier_stream, has_head, is_stream_before, link_number, link_of,
    response, stream_number,
};
