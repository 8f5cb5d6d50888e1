// The places of standard streams that are closed.
use std::fs;
use std::fs::{File, OpenOptions};
use std::os::fd::AsRawFd;
use std::rt::Files;

/// A file that gives nothing, and keeps nothing of what it takes.
const NOTHING: &str = "/dev/null";

/// Opens nothing in the place of each standard stream that is closed, and holds the places. For the system gives the lowest free descriptor to
/// what is opened next, so that a socket would get that of standard output, and its peer the report. Reads and writes of such a stream
/// fail as before.
pub fn hold_places<R: Files<File = File>>(rt: &R) -> [Option<File>; 3] {
    [hold_place(rt), hold_place(rt), hold_place(rt)]
}

/// Holds the lowest place, where that is a standard stream's: in the place of standard input stands what can only be written, and in the two
/// others what can only be read.
fn hold_place<R: Files<File = File>>(rt: &R) -> Option<File> {
    let written = OpenOptions::new().write(true).open(rt, NOTHING).ok()?;
    match written.as_raw_fd() {
        0 => Some(written),
        1 | 2 => {
            drop(written);
            fs::open(rt, NOTHING).ok()
        }
        _ => None,
    }
}
