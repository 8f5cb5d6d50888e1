// The lines of scripts: what each line of a replay, live or server script says, or the first cause why it is bad.
#![tactic(auto)]

mod answer;
mod call;
mod cause;
mod channel;
mod counts;
mod event;
mod field;
mod line;
mod live;
mod name;
mod part;
mod parts;
mod raw;
mod reader;
mod replay;
mod request;
mod split;
mod stamped;

pub use cause::{LineFault, NO_CHANNEL, UNKNOWN_KIND};
pub use line::ScriptLine;
pub use raw::test_line;
pub use reader::{BadLine, ScriptKind, ScriptReader};
