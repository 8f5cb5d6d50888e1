// A session from its events, computed as the definition says it: the action that comes next, what it adds, and so on until each event has its entry.
#![tactic(auto)]

mod adding;
mod events;
mod following;
mod frames;
mod picks;
mod playing;
mod report;
mod results;
mod room;

pub use adding::after;
pub use playing::{make_entry, new_session, next_action, play, run};
pub use report::{Report, report_of};
pub use room::may_open;
