// Attempt news of a link: the responses on its streams, reported piece by piece.
#![tactic(auto)]

mod ends;
mod laws;
mod link;
mod reader;
mod readers;

pub use laws::{news_are_what_responses_gain, pieces_join, tags_are_kept_apart};
pub use link::{GrpcArrival, GrpcLink};
pub use reader::ResponseReader;
