// A script, read from a source to its end or its first bad line: of a session, of a report, of a server, or of live calls.
#![tactic(auto)]

mod collected;
mod fault;
mod feed;
mod form;
mod line_reader;
mod live;
mod live_lines;
mod live_script;
mod read;
mod record;
mod relay;
mod script;
mod server;

pub use fault::InputFault;
pub use form::Form;
pub use live::read_live;
pub use live_script::{LiveScript, WorkerLine};
pub use read::{read_replay, read_report};
pub use relay::read_relay;
pub use script::Script;
pub use server::read_server;
