// What a connection asks of its channel, and what a channel was posted, in words.
use grpc_base::{Entry, Event, Reply};
use relay_front::{RelayAsk, RelayTurn};
use table_rows::{Said, Wrong};

/// Appends a word with its number and a text, after a comma.
fn say(out: &mut Said, word: &[u8], number: u32, text: &[u8]) {
    if !out.is_empty() {
        out.text(b", ");
    }
    out.text(word);
    out.text(b" ");
    out.number(u64::from(number));
    if !text.is_empty() {
        out.text(b" ");
        out.text(text);
    }
}

/// Asks, each with the number of its stream.
pub fn say_asks(out: &mut Said, asks: &[RelayAsk]) {
    for ask in asks {
        match ask {
            RelayAsk::Begin { stream, request } => {
                say(out, b"begin", *stream, request.path().as_slice());
            }
            RelayAsk::Send { stream, message } => say(out, b"send", *stream, message.as_slice()),
            RelayAsk::Finish { stream } => say(out, b"finish", *stream, b""),
            RelayAsk::Cancel { stream } => say(out, b"cancel", *stream, b""),
        }
    }
}

/// The number of the call that a Begin was given; 0 where it was refused.
fn begun(reply: &Reply) -> u32 {
    match reply {
        Reply::Call { call } => *call,
        _ => 0,
    }
}

/// An entry of an application, with the number of its call.
fn say_entry(out: &mut Said, entry: &Entry) {
    match &entry.event {
        Event::Begin { request } => {
            say(
                out,
                b"begin",
                begun(&entry.reply),
                request.path().as_slice(),
            );
        }
        Event::Send { call, message } => say(out, b"send", *call, message.as_slice()),
        Event::Finish { call } => say(out, b"finish", *call, b""),
        Event::Take { call } => say(out, b"take", *call, b""),
        Event::Cancel { call } => say(out, b"cancel", *call, b""),
        _ => out.text(b"another event"),
    }
}

/// Entries of applications.
pub fn say_entries(out: &mut Said, entries: &[Entry]) {
    for entry in entries {
        say_entry(out, entry);
    }
}

/// The answer of a turn.
pub fn say_turn(out: &mut Said, turn: RelayTurn) -> Result<(), Wrong> {
    match turn {
        RelayTurn::Going => out.text(b"going"),
        RelayTurn::Broken { code } => say(out, b"broken", code, b""),
        RelayTurn::Gone { refusal } => say(out, b"gone", u32::from(refusal), b""),
        RelayTurn::Failed(_) => out.text(b"failed"),
        RelayTurn::NoMemory => return Err(Wrong::NoMemory),
    }
    Ok(())
}
