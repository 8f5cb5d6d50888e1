// The end of one attempt, and what follows from it, is the actions of a session, in their order; nothing runs.
#![tactic(auto)]

pub mod attempt_ends;
pub mod last_hedges;
pub mod owed_resets;
