// Tests of the channel that threads share: Takes that are polled, and handles that are split and joined.
#![tactic(auto)]

#[cfg(test)]
mod handle_tests;
#[cfg(test)]
mod opened;
#[cfg(test)]
mod take_tests;
