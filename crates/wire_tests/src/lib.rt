// Tests of the wire crates that are steps of their own; the rows of tables are in `wire_rows`.
#![tactic(auto)]

#[cfg(test)]
mod h2_stream_tests;
