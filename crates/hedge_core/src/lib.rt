// The next hedged attempt of a call.
#![tactic(auto)]

mod hedges;

pub use hedges::{HedgeState, after_end, due_next};
