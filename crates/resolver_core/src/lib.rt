// What a channel is pointed at, and when it asks the resolver again.
#![tactic(auto)]

mod any_target;
mod item;
mod resolver;
mod target;

pub use any_target::{Target, read_any_target};
pub use resolver::Resolver;
pub use target::{TargetFault, read_target};
