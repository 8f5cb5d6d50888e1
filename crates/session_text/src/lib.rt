// What the modes of the program write of a session, and of a bad line.
#![tactic(auto)]

mod ran;
mod reporting;
mod session;

pub use ran::Ran;
pub use reporting::{SESSION_FULL, append_number, report_bad, unwritten, write_text};
pub use session::write_session;
