// What is done to the net of a channel is done by actions of a session.
#![tactic(auto)]

mod laws;

pub use laws::{
    nets_are_orderly, new_nets_are_new_sessions, policies_come_and_go, policy_steps_are_actions,
    subchannel_steps_are_actions,
};

pub mod net_frames;
