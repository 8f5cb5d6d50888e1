// One channel over the links of a world, as the modes that go over a network share it: it is opened, workers beside its calls keep its
// links, it is shut down, and its session is reported.
#![tactic(auto)]

mod closing;
mod context;
mod linkers;
mod opening;
mod report;
mod starting;

pub use closing::shut_down;
pub use context::{NETS, WorkerContext};
pub use linkers::{Linkers, close_links};
pub use opening::{open_channel, ran_of};
pub use report::report_channel;
pub use starting::start_links;
