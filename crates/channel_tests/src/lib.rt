// Tests of the top call of the channel.
#![tactic(auto)]

#[cfg(test)]
mod channel_top_config_tests;
#[cfg(test)]
mod channel_top_tests;
#[cfg(test)]
mod load_tests;
#[cfg(test)]
mod program;
#[cfg(test)]
mod serve_tests;
