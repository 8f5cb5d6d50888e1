// A script that was read whole.
use grpc_base::{Stamped, Text};
use resolver_core::Target;

/// A replay script.
#[derive(Debug, Drop)]
pub struct Script {
    /// The target as the channel line has it.
    pub target: Text,
    /// What the target says.
    pub value: Target,
    /// The events of the other lines, in their order.
    pub events: Vec<Stamped>,
}
