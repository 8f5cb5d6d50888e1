// Backoff arithmetic and throttling by code: the waits between retries, the waits between dials, how they are spread, and the
// bucket of tokens.
#![tactic(auto)]

mod draws;
mod growth;
mod tokens;
mod waits;

pub use draws::draw_up_to;
pub use tokens::Tokens;
pub use waits::{cap, next_connect_wait, retry_wait};
