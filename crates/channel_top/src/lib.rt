// The top call of the program: reads its words and runs the mode that they name.
#![tactic(auto)]

mod apart;
mod command;
mod config_mode;
mod help;
mod input;
mod links;
mod live;
mod live_words;
mod load;
mod migrate;
mod promise;
mod relay;
mod replay;
mod reporting;
mod run;
mod serve;
mod session;
mod top;
mod words;

pub use apart::{replays_are_one, replays_end_apart, statuses_end_apart};
pub use promise::sessions_keep_the_promise;
pub use top::{run_channel, run_steady};
