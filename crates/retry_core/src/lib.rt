// The next retry of a call, from the end of its last attempt.
#![tactic(auto)]

mod retries;

pub use retries::after_end;
