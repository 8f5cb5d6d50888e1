// The trait of load balancing policies, with the table by which each kind answers.
#![tactic(auto)]

mod balancer;
mod laws;
mod policy;
mod seen;

pub use balancer::Balancer;
pub use laws::{law_of_failed, laws_of_the_table, laws_of_tiers};
pub use policy::Policy;
pub use seen::SubSeen;
