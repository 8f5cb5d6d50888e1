// What is said at the end of a run over a network: how its calls ended, counted from the lines of its report as they are written.
#![tactic(auto)]

mod counts;
mod field;
mod tally;

pub use tally::RunTally;
