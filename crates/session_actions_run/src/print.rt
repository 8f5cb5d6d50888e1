// The actions of a script's session, entry by entry.
ghost use Rattle.std.specs.Prelude.{◌≡◌, ◌<◌, ◌⊎◌, length};
ghost use Rattle.resolver_core.specs.AnyTargets.{IsTarget};
ghost use Rattle.session_actions_run.specs.Reports.{IsLong, StopsAtRead, ReportsBadLine};
ghost use Rattle.session_text.specs.Writing.{WritesAll};

use crate::input::read_script;
use crate::lines::{print_action, print_closing};
use crate::session::MOST_EVENTS;
use crate::setup::setup_of;
use gate_io::{Sink, Source};
use grpc_base::{Conn, NoMemory, Stamped};
use resolver_core::Target;
use script_input::{Form, InputFault, Script};
use session_actions::{Action, Seen};
use session_text::report_bad;
use slow_attempts::last_of;
use slow_session::{after, may_open, new_session, next_action};
use std::alloc::Global;
use std::io;

/// The most actions of one entry.
const MOST_ACTIONS: u32 = 1_048_576;

/// Why the actions of a session were not printed whole.
#[derive(Clone, Copy, Debug, PartialEq, Eq)]
enum PrintFault {
    /// A write failed.
    Write,
    /// Out of memory, or no room for an event in the journal.
    NoMemory,
}

impl From<NoMemory> for PrintFault {
    fn from(_e: NoMemory) -> PrintFault {
        PrintFault::NoMemory
    }
}

impl From<io::Error> for PrintFault {
    fn from(_e: io::Error) -> PrintFault {
        PrintFault::Write
    }
}

/// Reads a script, or a report that holds one, prints the actions of its session, and gives the status of the program: those of
/// `run_script`, with actions in place of the report.
pub fn print_actions<R: Print, S: Source, K: Sink>(
    rt: &R,
    alloc: Global,
    form: Form,
    source: &mut S,
    sink: &mut K,
) -> u8
    ensures line { result ≡ 3 → WritesAll (ReportsBadLine form (S.left source.old) (S.left source.new)) (K.taken sink.old) (K.taken sink.new) }
    ensures reading { result ≡ 4 → StopsAtRead form (S.left source.old) (S.left source.new) (K.taken sink.old) (K.taken sink.new) (S.faults source.old) (S.faults source.new) }
    ensures long { result ≡ 7 → IsLong form (S.left source.old) (S.left source.new) }
    ensures known { (result ≡ 0) ⊎ (result ≡ 3) ⊎ (result ≡ 4) ⊎ (result ≡ 5) ⊎ (result ≡ 6) ⊎ (result ≡ 7) }
{
    match read_script(alloc, form, source) {
        Ok(read) => print_script(rt, alloc, read),
        Err(fault) => match fault {
            InputFault::Empty => 0,
            InputFault::BadLine { line, cause } => report_bad(alloc, line, cause, sink),
            InputFault::ReadFailed => 4,
            InputFault::NoMemory => 6,
        },
    }
}

/// Prints the actions of a script's session, or of that of its first events where it has too many, and gives the status of the program.
fn print_script<R: Print>(rt: &R, alloc: Global, script: Script) -> u8
    requires { IsTarget script.value }
    ensures long { result ≡ 7 → 4096 < length script.events.items }
    ensures known { (result ≡ 0) ⊎ (result ≡ 5) ⊎ (result ≡ 6) ⊎ (result ≡ 7) }
{
    let Script {
        target: _target,
        value,
        events,
    } = script;
    let is_long = MOST_EVENTS < events.len();
    match print_events(rt, alloc, &value, events) {
        Ok(()) => if is_long { print_stop(rt) } else { 0 },
        Err(fault) => status_of(fault),
    }
}

/// Says that there are more events than are computed.
fn print_stop<R: Print>(rt: &R) -> u8
    ensures { (result ≡ 5) ⊎ (result ≡ 7) }
{
    match println!(rt; "stopped after {MOST_EVENTS} entries") {
        Ok(()) => 7,
        Err(_) => 5,
    }
}

/// The status of the program where the actions were not printed whole.
fn status_of(fault: PrintFault) -> u8
    ensures { (result ≡ 5) ⊎ (result ≡ 6) }
{
    match fault {
        PrintFault::Write => 5,
        PrintFault::NoMemory => 6,
    }
}

/// Prints the actions of the session of these events, as many of them as are computed.
fn print_events<R: Print>(
    rt: &R,
    alloc: Global,
    value: &Target,
    events: Vec<Stamped>,
) -> Result<(), PrintFault>
    requires { IsTarget value.now }
{
    let mut first = events;
    first.truncate(MOST_EVENTS);
    let mut seen = new_session(alloc, setup_of(alloc, value)?);
    for stamped in first {
        print_entry(rt, alloc, &mut seen, stamped)?;
    }
    Ok(())
}

/// Posts an event, and prints the actions of its entry.
fn print_entry<R: Print>(
    rt: &R,
    alloc: Global,
    seen: &mut Seen,
    stamped: Stamped,
) -> Result<(), PrintFault> {
    if !may_open(&stamped.event, seen)? {
        return Err(PrintFault::NoMemory);
    }
    let number = seen.entries.len().saturating_add(1);
    println!(rt; "entry {number}")?;
    let Stamped {
        moment,
        word,
        event,
    } = stamped;
    let opening = Action::EntryOpens {
        posted: moment,
        word,
        event,
    };
    print_one(rt, alloc, seen, opening)?;
    print_following(rt, alloc, seen)
}

/// Does and prints the actions that follow, until the entry is made.
fn print_following<R: Print>(rt: &R, alloc: Global, seen: &mut Seen) -> Result<(), PrintFault> {
    for _ in 0..MOST_ACTIONS {
        match next_action(alloc, seen)? {
            Some(action) => print_one(rt, alloc, seen, action)?,
            None => return Ok(()),
        }
    }
    Err(PrintFault::NoMemory)
}

/// Does an action, and prints its line.
fn print_one<R: Print>(
    rt: &R,
    alloc: Global,
    seen: &mut Seen,
    action: Action,
) -> Result<(), PrintFault> {
    if is_closing(&action) {
        after(alloc, seen, action)?;
        print_closing(rt, last_state(seen))?;
    } else {
        print_action(rt, &action)?;
        after(alloc, seen, action)?;
    }
    Ok(())
}

fn is_closing(action: &Action) -> bool {
    matches!(action, Action::EntryCloses)
}

/// The state of the channel after the last entry.
fn last_state(seen: &Seen) -> Conn {
    match last_of(&seen.entries) {
        Some(entry) => entry.state,
        None => Conn::Idle,
    }
}
