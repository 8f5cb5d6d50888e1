// The report of a run, read as it is written.
use crate::counts::Counts;
use crate::field::Field;
use grpc_base::{NoMemory, read_number};
use std::alloc::Global;

/// What the fields of a line that were read so far say.
#[derive(Clone, Copy, PartialEq, Eq)]
enum Line {
    /// Nothing that counts.
    Other,
    /// The event is a Take.
    Take,
    /// It is answered with the end of its call.
    End,
    /// The event is a result of the resolver.
    Resolved,
    /// The line is a row of the ledger.
    Row,
    /// The line is the last one of the report, with its counts.
    Last,
}

/// Counts how the calls of a report ended.
///
/// It knows of each line only what it counts: who asks for more reads the report.
#[derive(Drop)]
pub struct RunTally {
    counts: Counts,
    field: Field,
    /// How many fields of the line were read.
    place: u32,
    line: Line,
    /// Whether the last line of a report was read.
    is_over: bool,
}

impl RunTally {
    /// A tally of a report of which nothing was written yet.
    pub fn new() -> RunTally {
        RunTally {
            counts: Counts::new(),
            field: Field::new(),
            place: 0,
            line: Line::Other,
            is_over: false,
        }
    }

    /// Takes the next piece of the report, wherever it was cut.
    pub fn take(&mut self, piece: &[u8]) {
        for byte in piece {
            match *byte {
                b' ' => self.end_field(),
                b'\n' => {
                    self.end_field();
                    self.place = 0;
                    self.line = Line::Other;
                }
                byte => self.field.push(byte),
            }
        }
    }

    /// How the calls ended, how many attempts were made for them, and how long it took, in one line after the name of the mode; before
    /// it a line where the service config was refused. As `live: 6 calls: 3 OK, 3 UNAVAILABLE; 9 attempts, 3 retries; 941 ms`. Nothing
    /// where no report was written.
    pub fn words(&self, alloc: Global, mode: &[u8]) -> Result<Vec<u8>, NoMemory> {
        let mut out = Vec::new(alloc);
        if !self.is_over {
            return Ok(out);
        }
        if self.counts.is_config_refused {
            out.extend_from_slice(
                b"warning: the service config was refused, and calls got none of it; 'grpcc config' says what is wrong in it\n",
            )?;
        }
        out.extend_from_slice(mode)?;
        out.extend_from_slice(b": ")?;
        self.counts.append_to(&mut out)?;
        out.push(b'\n')?;
        Ok(out)
    }

    /// A field of a line was read to its end.
    fn end_field(&mut self) {
        let next = read_field(&mut self.counts, self.line, self.place, self.field.text());
        self.line = next;
        self.is_over |= next == Line::Last;
        self.field.clear();
        self.place = self.place.saturating_add(1);
    }
}

/// Counts what the field at this place of such a line says; gives what the line is known to be after it.
fn read_field(counts: &mut Counts, line: Line, place: u32, text: &[u8]) -> Line {
    match (line, place) {
        (_, 0) => read_first(counts, text),
        (Line::Other, 2) => event_of(text),
        (Line::Take, 5) if text == b"end".as_slice() => Line::End,
        (Line::End, 6) => {
            if let Some(code) = read_number(text) {
                counts.end(code);
            }
            line
        }
        (Line::Resolved, _) => {
            if text == b"badconfig".as_slice() {
                counts.is_config_refused = true;
            }
            line
        }
        (Line::Row, 3) => {
            count_row(counts, text);
            line
        }
        (Line::Last, 2) => {
            counts.calls = read_number(text).unwrap_or(0);
            line
        }
        _ => line,
    }
}

/// The first field of a line: the moment of an entry, or the word of another line.
fn read_first(counts: &mut Counts, text: &[u8]) -> Line {
    match text {
        b"row" => Line::Row,
        b"end" => Line::Last,
        text => {
            if let Some(moment) = read_number(text) {
                counts.pass(moment);
            }
            Line::Other
        }
    }
}

/// What the word of an event says.
fn event_of(text: &[u8]) -> Line {
    match text {
        b"take" => Line::Take,
        b"resolved" => Line::Resolved,
        _ => Line::Other,
    }
}

/// Counts an attempt by why it was made.
fn count_row(counts: &mut Counts, kind: &[u8]) {
    counts.attempts = counts.attempts.saturating_add(1);
    match kind {
        b"retry" => counts.retries = counts.retries.saturating_add(1),
        b"hedge" => counts.hedges = counts.hedges.saturating_add(1),
        b"transparent" => counts.transparent = counts.transparent.saturating_add(1),
        _ => {}
    }
}
