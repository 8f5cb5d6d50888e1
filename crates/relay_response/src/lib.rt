// The header blocks of a response that a proxy gives on.
#![tactic(auto)]

mod block;
mod fields;
mod fit;

pub use block::{Block, end_block, head_block};
