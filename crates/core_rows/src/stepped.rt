// A channel that is given the events of a script.
use channel_core::{ChannelCore, CoreError};
use gate_io::MemSink;
use grpc_base::{Stamped, Text};
use plain_channel::{AUTHORITY, Plain, Unmade, new_channel};
use script_text::{BadLine, ScriptKind, ScriptLine, ScriptReader, write_report};
use std::alloc::Global;

/// What came of a line.
#[derive(Clone, Copy, Debug, PartialEq, Eq)]
pub enum Came {
    /// A channel line.
    Opened,
    /// An entry.
    Made,
    /// No room for one.
    Full { entries: u64, octets: u64 },
    /// Out of memory, and the channel is as before.
    Unspent,
    /// Out of memory half way through a step, now or before.
    Spent,
    /// Out of memory before the line was read.
    Unread,
    /// No line of a script.
    Bad,
}

/// A channel, and the reader of its script.
#[derive(Drop)]
pub struct Stepped {
    core: ChannelCore<Plain>,
    reader: ScriptReader,
}

/// What came of one step.
fn came_of(core: &mut ChannelCore<Plain>, stamped: Stamped) -> Came {
    match core.step(stamped) {
        Ok(_reply) => Came::Made,
        Err(CoreError::SessionFull { entries, octets }) => Came::Full { entries, octets },
        Err(CoreError::NoMemory { spent: false }) => Came::Unspent,
        Err(CoreError::NoMemory { spent: true }) => Came::Spent,
    }
}

/// What a line says.
fn read(reader: &mut ScriptReader, text: &[u8]) -> Result<Stamped, Came> {
    match reader.line(text, true) {
        Ok(ScriptLine::Event { stamped }) => Ok(stamped),
        Ok(ScriptLine::Channel { .. }) => Err(Came::Opened),
        Ok(_) => Err(Came::Bad),
        Err(BadLine::NoMemory) => Err(Came::Unread),
        Err(BadLine::At { .. }) => Err(Came::Bad),
    }
}

impl Stepped {
    /// A new channel, before the first line of a script.
    pub fn new(alloc: Global) -> Result<Stepped, Unmade> {
        let authority = Text::of_slice(alloc, AUTHORITY)?;
        let core = new_channel(alloc, authority)?;
        let reader = ScriptReader::new(alloc, ScriptKind::Replay);
        Ok(Stepped { core, reader })
    }

    /// What came of a line.
    pub fn step(&mut self, text: &[u8]) -> Came {
        match read(&mut self.reader, text) {
            Ok(stamped) => came_of(&mut self.core, stamped),
            Err(came) => came,
        }
    }

    /// How many entries there are.
    pub fn entries(&self) -> u64 {
        self.core.journal().entries.len() as u64
    }

    /// The report of the session so far, where there was memory for it.
    pub fn report(&self, alloc: Global, target: &Text) -> Option<MemSink> {
        let mut sink = MemSink::new(alloc, 65_536, Vec::new(alloc));
        let (journal, ledger) = (self.core.journal(), self.core.ledger());
        write_report(alloc, journal, ledger, target, &mut sink).ok()?;
        Some(sink)
    }
}
