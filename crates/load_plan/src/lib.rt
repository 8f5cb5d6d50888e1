// The plan of a load: what a session made from a seed does, in which order and at which moments, and the line that sums it up.
#![tactic(auto)]

mod action;
mod answers;
mod batch;
mod laws;
mod load;
mod opening;
mod summary;
mod words;

pub use action::{LoadAction, LoadStep};
pub use laws::{batches_have_each_call_once, moments_never_fall, seed_0_answers, seed_0_line};
pub use load::Load;
pub use opening::authority;
pub use summary::LoadSummary;
pub use words::{EVENT_WORD, word_of};
