// Tests of the workers at the edge, over links in memory that fail, and over a channel in memory that refuses and fails.
#![tactic(auto)]

mod channel;
#[cfg(test)]
mod client_calls_tests;
#[cfg(test)]
mod dial_tests;
#[cfg(test)]
mod dns_watch_tests;
#[cfg(test)]
mod keepalive_core_tests;
#[cfg(test)]
mod live_pump_tests;
#[cfg(test)]
mod live_run_tests;
#[cfg(test)]
mod names;
#[cfg(test)]
mod tender_tests;

pub use channel::{Channel, DIALED, DIALED_UNTIL, FULL, Plan};
