// JSON texts, read exactly or refused with the first fault and its place.
#![tactic(auto)]

mod decimal;
mod json;
mod members;
mod number;
mod place;
mod read;
mod reader;
mod string;

pub use decimal::{milli, nanos};
pub use json::{Json, member_of};
pub use read::read_json;
