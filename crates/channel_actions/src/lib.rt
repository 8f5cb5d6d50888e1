// What the channel does is a session: its runs are lists of actions.
#![tactic(auto)]

mod laws;

pub use laws::{
    entries_open_and_close, new_channels_are_new_sessions, nothing_due_stays, pings_are_queued,
    plain_events_are_answered, runs_are_sessions,
};

pub mod actions_fit;
pub mod acts_followed;
pub mod board_actions;
pub mod drain_books;
pub mod drain_calls;
pub mod drain_lends;
pub mod drain_writes;
pub mod few_calls;
pub mod going_calls;
pub mod held_texts;
pub mod kept_calls;
pub mod kept_sessions;
pub mod link_frames;
pub mod own_links;
pub mod own_streams;
pub mod prefaced_links;
pub mod reset_calls;
pub mod set_frames;
pub mod sound_buffers;
pub mod sound_calls;
pub mod streams_opened;
pub mod their_links;
pub mod transparent_retries;
