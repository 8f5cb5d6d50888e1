// Tests of the scripted server by whole exchanges.
#![tactic(auto)]

#[cfg(test)]
mod drain_tests;
#[cfg(test)]
mod exchange;
#[cfg(test)]
mod link_server_tests;
#[cfg(test)]
mod loop_server_tests;
