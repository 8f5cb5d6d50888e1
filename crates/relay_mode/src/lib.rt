// The mode `relay`: links of a listener whose calls all go through one channel over the links of a world.
#![tactic(auto)]

mod accepting;
mod link;
mod mode;
mod prompt;
mod relay_side;
mod run;
mod session;
mod settings;
mod sides;

pub use mode::run_relay;
pub use settings::RelaySettings;
