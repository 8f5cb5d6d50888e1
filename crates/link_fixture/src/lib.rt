// Plain requests that a link is lent, for tests and measurements of links.
#![tactic(auto)]

mod fixture;

pub use fixture::Fixture;
