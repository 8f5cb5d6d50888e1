//! Tries the public calls of plain data and of the ledger on the rows of a table.
#![tactic(auto)]

mod attempts;
mod plain;
mod policies;

use std::alloc::Global;
use std::io;
use table_rows::{Answers, Said, Wrong, run};

/// Rows of which none goes on from an earlier one.
#[derive(Drop)]
struct Base;

impl Answers for Base {
    fn answer(
        &mut self,
        alloc: Global,
        kind: &str,
        input: &str,
        out: &mut Said,
    ) -> Result<(), Wrong> {
        match kind {
            "rows" => attempts::checked(alloc, input, out),
            "metadata" => plain::metadata(alloc, input, out),
            "path" => plain::path(alloc, input, out),
            "address" => plain::address(alloc, input, out),
            "number" => plain::read(alloc, input, out),
            "names" => plain::names(alloc, input, out),
            "server" => plain::server(alloc, input, out),
            _ => Err(Wrong::Form),
        }
    }
}

fn main(rt: HostRuntime) -> io::Result<()> {
    run(&rt, &mut Base)
}
