// The links of a listener, served side by side by one thread.
ghost use Rattle.std.specs.Prelude.{◌≡◌, false, true};
ghost use Rattle.link_server.specs.Listening.{NotesSo, ServesSo};

use crate::{OpenLinks, Serving};
use gate_io::{Happened, Listener};
use std::alloc::Global;
use std::sync::Wait;

/// What was noted of what happened at a listener.
#[derive(Clone, Copy, Debug, PartialEq, Eq)]
pub enum Noted {
    /// A link came.
    Link,
    /// Something else, or nothing.
    Other,
    /// The next link was not accepted.
    Failed,
    /// There was no memory for the next link.
    NoMemory,
}

/// How the serving of links ended.
#[derive(Clone, Copy, Debug, PartialEq, Eq)]
pub enum Served {
    /// Each link has ended.
    Whole,
    /// The next link was not accepted; those before it have ended.
    NotListening,
    /// The server found no memory for a link.
    NoMemory,
}

/// Notes what happens next at a listener.
fn note_next<L: Listener>(
    listener: &mut L,
    open: &mut OpenLinks<L::In, L::Out>,
    accepts: bool,
) -> Noted
    ensures { NotesSo accepts (L.faults listener.old) (L.faults listener.new) result }
{
    let waits = !open.has_due();
    match listener.next(accepts, waits) {
        Happened::Came(input, output) => match open.push(input, output) {
            Ok(()) => Noted::Link,
            Err(_) => Noted::NoMemory,
        },
        Happened::At(number) => {
            open.note(number);
            Noted::Other
        }
        Happened::Anywhere => {
            open.note_all();
            Noted::Other
        }
        Happened::Nothing => Noted::Other,
        Happened::Failed => Noted::Failed,
    }
}

/// A turn of each link that is to have one; where that may let the server give something on others, all are to have one then.
fn turn<V: Serving, L: Listener>(core: &mut V, open: &mut OpenLinks<L::In, L::Out>) -> bool {
    let found = open.turn(core);
    if core.frees_others() {
        open.note_all();
    }
    found
}

/// Accepts so many links, and serves those that came meanwhile.
fn accept_links<W: Wait, V: Serving, L: Listener>(
    rt: &W,
    core: &mut V,
    listener: &mut L,
    open: &mut OpenLinks<L::In, L::Out>,
    links: u32,
) -> Served
    ensures { ServesSo (L.faults listener.old) (L.faults listener.new) result }
{
    let mut left = links;
    let mut found = true;
    for _ in rt.forever() {
        if left == 0 {
            return if found {
                Served::Whole
            } else {
                Served::NoMemory
            };
        }
        match note_next(listener, open, true) {
            Noted::Link => left -= 1,
            Noted::Other => {}
            Noted::Failed => return Served::NotListening,
            Noted::NoMemory => return Served::NoMemory,
        }
        let has_memory = turn::<V, L>(core, open);
        found = found && has_memory;
    }
    unreachable!()
}

/// Serves the links that came, each to its end, and says whether the server found memory for all of them.
fn end_links<W: Wait, V: Serving, L: Listener>(
    rt: &W,
    core: &mut V,
    listener: &mut L,
    open: &mut OpenLinks<L::In, L::Out>,
) -> bool
    ensures { L.faults listener.new ≡ L.faults listener.old }
{
    let mut found = true;
    for _ in rt.forever() {
        let has_memory = turn::<V, L>(core, open);
        found = found && has_memory;
        if open.is_empty() {
            return found;
        }
        note_next(listener, open, false);
    }
    unreachable!()
}

/// Serves so many links of a listener that is open, side by side, each to its end. The one thread waits for all of them at once. It may
/// never return.
pub fn serve_links<W: Wait, V: Serving, L: Listener>(
    rt: &W,
    alloc: Global,
    core: &mut V,
    listener: &mut L,
    links: u32,
) -> Served
    ensures { ServesSo (L.faults listener.old) (L.faults listener.new) result }
{
    let mut open = OpenLinks::new(alloc);
    let served = accept_links(rt, core, listener, &mut open, links);
    if end_links(rt, core, listener, &mut open) {
        served
    } else {
        Served::NoMemory
    }
}
