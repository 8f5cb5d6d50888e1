//! Tries the public calls of a relay's connection on the rows of a table: exchanges, and turns at a channel in memory.
#![tactic(auto)]

mod channel;
mod connection;
mod items;
mod links;
mod plan;
mod turns;
mod words;

use connection::Rows;
use std::io;
use table_rows::run;

fn main(rt: HostRuntime) -> io::Result<()> {
    run(&rt, &mut Rows::new(rt))
}
