//! Gives the events of scripts to channels one by one, and prints what came of each.
#![tactic(auto)]

mod line;
mod reported;
mod stepped;

use std::io;
use stepped::Stepped;

/// Standard input has the scripts, one after another.
fn main(rt: HostRuntime) -> io::Result<()> {
    let Ok(mut stepped) = Stepped::new(rt.alloc()) else {
        return println!(rt; "no channel");
    };
    for line in rt.lines(rt.alloc()) {
        let line = line?;
        reported::print_line(&rt, &mut stepped, line.as_str())?;
    }
    Ok(())
}
