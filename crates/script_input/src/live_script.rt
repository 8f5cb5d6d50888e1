// A live script that was read whole.
use grpc_base::{CallLine, Octets, Text};
use resolver_core::Target;

/// A call of a live script, and the number of the worker that makes it, from 1 to 16.
#[derive(Debug, Drop)]
pub struct WorkerLine {
    pub worker: u32,
    pub line: CallLine,
}

/// A live script: what a channel is made for, its service config, and the calls that are made.
#[derive(Debug, Drop)]
pub struct LiveScript {
    /// The target as the channel line has it.
    pub target: Text,
    /// What the target says.
    pub value: Target,
    pub config: Option<Octets>,
    /// The calls in the order of their lines.
    pub calls: Vec<WorkerLine>,
}

/// What the channel line says.
#[derive(Debug, Drop)]
pub struct Named {
    pub target: Text,
    pub value: Target,
}
