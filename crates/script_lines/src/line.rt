// What a line of a script says.
use grpc_base::{AnswerLine, CallLine, Octets, Stamped, Text};
use resolver_core::Target;

/// A line of a script.
#[derive(Debug, Drop)]
pub enum ScriptLine {
    /// The first line of a replay or live script, of either version: the target as it is written, and what it says.
    Channel { target: Text, value: Target },
    /// An event of a replay script, with its moment and its random word.
    Event { stamped: Stamped },
    /// The service config of a live script.
    Config { config: Octets },
    /// A call of a live script, which the worker of this number makes, from 1 to 16.
    Call { worker: u32, line: CallLine },
    /// An answer of a server script.
    Answer { line: AnswerLine },
}
