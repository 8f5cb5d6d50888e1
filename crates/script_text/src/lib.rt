// Scripts and reports as texts: how an event, a reply and a row are spelled, and the report of a session.
#![tactic(auto)]

mod config;
mod events;
mod output;
mod replies;
mod report;
mod rows;
mod script;

pub use config::write_config;
pub use report::{ReportFault, write_report};
pub use script::write_script;
pub use script_lines::{BadLine, ScriptKind, ScriptLine, ScriptReader};
