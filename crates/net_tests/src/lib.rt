// Tests of the public calls of the net: subchannels with their links, generations, pick requests.
#![tactic(auto)]

#[cfg(test)]
mod net_tests;
