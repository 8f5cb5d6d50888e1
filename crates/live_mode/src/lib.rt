// The mode `live`: calls of a script over real links, by one channel that all threads share.
#![tactic(auto)]

mod mode;
mod session;
mod settings;
mod sides;
mod start;
mod workers;

pub use live_channel::NETS;
pub use mode::run_live;
pub use settings::LiveSettings;
