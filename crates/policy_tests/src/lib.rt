// Tests of the public calls of the policy layer: waits, subchannels, load balancing policies, the rack of policies.
#![tactic(auto)]

#[cfg(test)]
mod a6_numbers_tests;
#[cfg(test)]
mod lb_kinds_tests;
#[cfg(test)]
mod policy_rack_tests;
#[cfg(test)]
mod subchannel_tests;
#[cfg(test)]
mod tiers_tests;
