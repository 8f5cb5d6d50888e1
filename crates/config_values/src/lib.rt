// The values of a service config: its fields one by one, the policies and the throttling, and the places of faults.
#![tactic(auto)]

mod code;
mod field;
mod path;
mod place;
mod plan;
mod value;

pub use field::{duration, fields_at, flag, size, text, value_of};
pub use path::reported;
pub use place::{Fault, Field, Object, Place};
pub use plan::{plan_in, throttle_in};
