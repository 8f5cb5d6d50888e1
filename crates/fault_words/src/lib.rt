// The words for people: what is said on standard error of a run that did not end well.
#![tactic(auto)]

mod answer;
mod channel;
mod command;
mod config;
mod ending;
mod fields;
mod finding;
mod json;
mod lines;
mod remembered;
mod table;
mod values;
mod walk;
mod words;

pub use command::is_misspelled;
pub use ending::{Ended, Failure, explain, warn};
pub use remembered::Remembered;
