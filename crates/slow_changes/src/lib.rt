// What each action adds to the history of a session, as the definitions say it. The history is changed in place.
#![tactic(auto)]

mod attempts;
mod calls;
mod configs;
mod entries;
mod links;
mod policies;
mod posted;
mod subs;
mod table;
mod traffic;

pub use attempts::{
    attempt_ended, attempt_made, attempt_placed, call_committed, hedge_withheld, pick_requested,
    stream_given, stream_reset,
};
pub use calls::{
    call_begun, call_configured, call_ended, item_taken, message_accepted, request_finished,
};
pub use configs::{config_read, resolution_failed};
pub use entries::{entry_made, opened, replied, settling};
pub use links::{link_broken, link_lost};
pub use policies::{addresses_given, policy_begun, policy_retired, policy_took_over};
pub use subs::{
    SubChange, connect_timed_out, dial_failed, dial_taken, link_up, sub_added, with_sub,
};
pub use traffic::{bytes_arrived, frame_read, frame_written, ping_queued};
