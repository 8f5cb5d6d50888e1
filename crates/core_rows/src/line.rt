// The lines of standard input.
use std::alloc::Global;
use table_rows::{Wrong, bytes_of, number};

/// A line of a script, and how often it is given.
#[derive(Drop)]
pub struct Given {
    pub times: u64,
    pub bytes: Vec<u8>,
}

/// Reads `9* ` before a line of a script as nine times, and `<5*ab>` in it as five times `ab`.
pub fn read(alloc: Global, line: &str) -> Result<Given, Wrong> {
    let (times, text) = line.split_once("* ").unwrap_or(("1", line));
    let times = number(times)?;
    let bytes = bytes_of(alloc, text)?;
    Ok(Given { times, bytes })
}

/// The beginning of a line, for what is reported of it.
pub fn beginning(line: &str) -> &str {
    line.get(..40).unwrap_or(line)
}
