// The policy `priority`: tiers of subchannels, of which a later one is used while every earlier one has failed.
#![tactic(auto)]

mod bad_width;
mod priority;

pub use bad_width::BadWidth;
pub use priority::Priority;
