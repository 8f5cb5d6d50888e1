// What is remembered of an input, so that a fault in it can be shown.
use grpc_base::limits::CONFIG_BYTES;
use std::alloc::Global;
use std::mem::swap;

/// How many bytes of its end are remembered at least.
const LAST: usize = 32_768;

/// An input as far as it is remembered: its prefix, its last bytes, and how many lines and bytes were read.
#[derive(Debug, Drop)]
pub struct Remembered {
    prefix: Vec<u8>,
    /// The bytes before `last` that are remembered.
    before: Vec<u8>,
    last: Vec<u8>,
    /// How many line feeds were read.
    feeds: u64,
    bytes: u64,
    /// Whether memory was wanting; nothing is shown then.
    lost: bool,
}

/// A line, as far as it is remembered.
#[derive(Clone, Copy)]
pub struct Line<'a> {
    /// Its number, from 1.
    pub number: u64,
    pub text: &'a [u8],
    /// Whether its beginning is there.
    pub begins: bool,
    /// Whether its end is there.
    pub ends: bool,
    /// Whether a line feed ends it.
    pub is_fed: bool,
}

impl Remembered {
    /// Nothing was read yet.
    pub fn new(alloc: Global) -> Remembered {
        Remembered {
            prefix: Vec::new(alloc),
            before: Vec::new(alloc),
            last: Vec::new(alloc),
            feeds: 0,
            bytes: 0,
            lost: false,
        }
    }

    /// Takes the next bytes of the input. Where memory is wanting, all is forgotten.
    pub fn take(&mut self, piece: &[u8]) {
        let feeds = piece.iter().filter(|b| **b == b'\n').count();
        self.feeds = self.feeds.saturating_add(feeds as u64);
        self.bytes = self.bytes.saturating_add(piece.len() as u64);
        let room = CONFIG_BYTES.saturating_sub(self.prefix.len());
        let prefix = piece.get(0..room).unwrap_or(piece);
        if self.last.len() >= LAST {
            swap(&mut self.before, &mut self.last);
            self.last.clear();
        }
        if self.prefix.extend_from_slice(prefix).is_err()
            || self.last.extend_from_slice(piece).is_err()
        {
            self.lost = true;
        }
    }

    /// The first bytes, all of a config.
    pub fn prefix(&self) -> &[u8] {
        if self.lost {
            return b"";
        }
        self.prefix.as_slice()
    }

    /// The last bytes.
    pub fn end(&self, alloc: Global) -> Vec<u8> {
        let mut end = Vec::new(alloc);
        if self.lost
            || end.extend_from_slice(self.before.as_slice()).is_err()
            || end.extend_from_slice(self.last.as_slice()).is_err()
        {
            end.clear();
        }
        end
    }

    /// How many bytes were read.
    pub fn bytes(&self) -> u64 {
        self.bytes
    }

    /// The line of a number, where some of it is remembered: whole if possible, else its beginning, else its end.
    pub fn line<'a>(&'a self, end: &'a [u8], number: u64) -> Option<Line<'a>> {
        let feeds = end.iter().filter(|b| **b == b'\n').count();
        let first = self.feeds.saturating_sub(feeds as u64).saturating_add(1);
        let mut last = line_in(end, number, first);
        if let Some(line) = last {
            let begins = number != first || end.len() as u64 == self.bytes;
            last = Some(Line { begins, ..line });
            if begins {
                return last;
            }
        }
        match line_in(self.prefix(), number, 1) {
            Some(line) => Some(Line {
                ends: line.is_fed,
                ..line
            }),
            None => last,
        }
    }
}

/// The line of a number in a text that begins with the line of number `first`.
fn line_in(text: &[u8], number: u64, first: u64) -> Option<Line<'_>> {
    let mut found: Option<Line<'_>> = None;
    let mut at = first;
    for text in text.split(|b| *b == b'\n') {
        if let Some(line) = found {
            return Some(Line {
                is_fed: true,
                ..line
            });
        }
        if at == number {
            found = Some(Line {
                number,
                text,
                begins: true,
                ends: true,
                is_fed: false,
            });
        }
        at = at.saturating_add(1);
    }
    found
}
