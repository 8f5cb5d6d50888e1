// Service configs: read exactly or refused with the first fault and its path, and chosen from for a path.
#![tactic(auto)]

mod config;
mod entry;
mod known;
mod methods;
mod read;
mod text;

pub use config::{Config, Method};
pub use read::read_config;
pub use text::{append_config, append_fault, config_text, fault_text};
