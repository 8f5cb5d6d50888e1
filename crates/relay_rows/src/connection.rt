// The rows of one connection, each of which goes on from the one before.
use crate::channel::Channel;
use crate::items::Item;
use crate::links::link;
use crate::plan::number_of;
use crate::turns::{close, turn};
use crate::words::say_asks;
use relay_front::{RelayCore, RelayFault};
use std::alloc::Global;
use std::sync::Wait;
use table_rows::{Answers, Said, Wrong, bytes_of_hex};

/// A connection and the channel of its turns.
#[derive(Drop)]
pub struct Connected {
    pub core: RelayCore,
    pub channel: Channel,
    /// How many entries of the channel were said.
    pub seen: usize,
}

/// What a row goes on from: nothing before the first connection.
#[derive(Drop)]
pub struct Rows<W> {
    rt: W,
    connected: Option<Connected>,
}

impl<W> Rows<W> {
    /// No connection yet.
    pub fn new(rt: W) -> Rows<W> {
        Rows {
            rt,
            connected: None,
        }
    }

    /// A new connection, at a channel of whose calls nothing is to come.
    fn begin(&mut self, alloc: Global) -> Result<(), Wrong> {
        let connected = Connected {
            core: RelayCore::new(alloc)?,
            channel: Channel::new(alloc)?,
            seen: 0,
        };
        self.connected = Some(connected);
        Ok(())
    }
}

/// A fault of a connection.
fn say_fault(out: &mut Said, fault: RelayFault) -> Result<(), Wrong> {
    match fault {
        RelayFault::Broken { code } => {
            out.text(b"broken ");
            out.number(u64::from(code));
        }
        RelayFault::RoomTooSmall => out.text(b"small"),
        RelayFault::NoMemory => return Err(Wrong::NoMemory),
    }
    Ok(())
}

/// What is asked for bytes.
fn arrive(alloc: Global, core: &mut RelayCore, input: &str, out: &mut Said) -> Result<(), Wrong> {
    let bytes = bytes_of_hex(alloc, input)?;
    match core.arrived(bytes.as_slice()) {
        Ok(asks) => {
            say_asks(out, asks.as_slice());
            Ok(())
        }
        Err(fault) => say_fault(out, fault),
    }
}

/// Gives a stream an item.
fn give(alloc: Global, core: &mut RelayCore, input: &str) -> Result<(), Wrong> {
    let (stream, words) = input.split_once(' ').ok_or(Wrong::Form)?;
    let item = Item::of(alloc, words)?.reply(alloc);
    core.give(number_of(stream)?, item)?;
    Ok(())
}

/// What may be sent with this room.
fn drain(alloc: Global, core: &mut RelayCore, input: &str, out: &mut Said) -> Result<(), Wrong> {
    match core.drain(number_of(input)?) {
        Ok(octets) => {
            out.hex(alloc, octets.as_slice());
            Ok(())
        }
        Err(fault) => say_fault(out, fault),
    }
}

/// The answer to a row of a connection.
fn answer_of(
    alloc: Global,
    at: &mut Connected,
    kind: &str,
    input: &str,
    out: &mut Said,
) -> Result<(), Wrong> {
    match kind {
        "in" => arrive(alloc, &mut at.core, input, out),
        "give" => give(alloc, &mut at.core, input),
        "out" => drain(alloc, &mut at.core, input, out),
        "turn" => turn(alloc, at, input, out),
        "close" => close(at, out),
        _ => at.channel.plan.take(kind, input),
    }
}

impl<W: Wait> Answers for Rows<W> {
    fn answer(
        &mut self,
        alloc: Global,
        kind: &str,
        input: &str,
        out: &mut Said,
    ) -> Result<(), Wrong> {
        if kind == "new" {
            return self.begin(alloc);
        }
        let Some(at) = &mut self.connected else {
            return Err(Wrong::Form);
        };
        if kind == "link" {
            return link(&self.rt, alloc, at, input, out);
        }
        answer_of(alloc, at, kind, input, out)
    }
}
