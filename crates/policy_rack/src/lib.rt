// The policies of a channel, and the generations that use them.
#![tactic(auto)]

mod kinds;
mod laws;
mod live;
mod places;
mod rack;
mod ready;

pub use kinds::set_of;
pub use laws::laws_of_runs;
pub use live::Live;
pub use rack::Rack;
pub use ready::{boxes_ready, policies_ready};
