// What an application takes of a call in a session, in all; theorems about actions alone.
#![tactic(auto)]

mod laws;

pub use laws::{
    channels_stay_shut, commitments_are_one, committed_calls_rest, items_stay, journals_report,
    takes_are_first, takes_are_whole,
};
