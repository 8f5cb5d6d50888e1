// What is reported of each line.
use crate::line::{Given, beginning, read};
use crate::stepped::{Came, Stepped};
use grpc_base::Text;
use std::io;
use table_rows::Wrong;

/// How often a line is given that found no memory and changed nothing, and how often a report is begun.
const TRIES: u32 = 2;

/// The target of the scripts.
const TARGET: &[u8] = b"ipv4:127.0.0.1:50051";

/// Gives a line so many times, up to one of which no entry came.
fn give(stepped: &mut Stepped, given: &Given) -> Came {
    let mut came = Came::Made;
    for _ in 0..given.times {
        came = stepped.step(given.bytes.as_slice());
        if came != Came::Made {
            return came;
        }
    }
    came
}

/// What came of a line.
fn came_of(stepped: &mut Stepped, given: Result<Given, Wrong>) -> Came {
    match given {
        Ok(given) => give(stepped, &given),
        Err(Wrong::NoMemory) => Came::Unread,
        Err(Wrong::Form) => Came::Bad,
    }
}

fn print_came<R: Print>(rt: &R, line: &str, came: Came) -> io::Result<()> {
    match came {
        Came::Opened => println!(rt; "{line}"),
        Came::Made => println!(rt; "{line}: made"),
        Came::Full { entries, octets } => println!(rt; "{line}: full {entries} {octets}"),
        Came::Unspent => println!(rt; "{line}: unspent"),
        Came::Spent => println!(rt; "{line}: spent"),
        Came::Unread => println!(rt; "{line}: unread"),
        Came::Bad => println!(rt; "{line}: bad"),
    }
}

/// Gives a line, and once more where it found no memory and changed nothing.
fn print_steps<R: Print + AllocGlobal>(
    rt: &R,
    stepped: &mut Stepped,
    line: &str,
) -> io::Result<()> {
    for _ in 0..TRIES {
        let came = came_of(stepped, read(rt.alloc(), line));
        print_came(rt, beginning(line), came)?;
        if came != Came::Unspent && came != Came::Unread {
            return Ok(());
        }
    }
    Ok(())
}

fn print_report<R: Print + AllocGlobal>(rt: &R, stepped: &Stepped) -> io::Result<()> {
    for _ in 0..TRIES {
        let Ok(target) = Text::of_slice(rt.alloc(), TARGET) else {
            continue;
        };
        if let Some(report) = stepped.report(rt.alloc(), &target) {
            return rt.write_all(report.taken());
        }
    }
    println!(rt; "no report")
}

/// Another channel.
fn open<R: Print + AllocGlobal>(rt: &R, stepped: &mut Stepped) -> io::Result<()> {
    match Stepped::new(rt.alloc()) {
        Ok(new) => {
            *stepped = new;
            Ok(())
        }
        Err(_) => println!(rt; "no channel"),
    }
}

/// Does what a line of standard input says, and prints what came of it.
pub fn print_line<R: Print + AllocGlobal>(
    rt: &R,
    stepped: &mut Stepped,
    line: &str,
) -> io::Result<()> {
    match line {
        "entries" => println!(rt; "entries {}", stepped.entries()),
        "report" => print_report(rt, stepped),
        _ if line.is_empty() || line.starts_with('#') => Ok(()),
        _ => {
            if line.starts_with("channel ") {
                open(rt, stepped)?;
            }
            print_steps(rt, stepped, line)
        }
    }
}
