// The text that is said.
use crate::finding::Finding;
use crate::table::{row, sentences};
use grpc_base::{NoMemory, append_decimal, first_piece};
use std::alloc::Global;

/// How many bytes of an input a sentence shows at most.
const SHOWN: usize = 60;

/// How many bytes of a line are shown at most.
const WIDTH: usize = 80;

/// How many of them stand before the place of a fault at most.
const LEAD: usize = 40;

/// A text for standard error, as far as there is memory for it.
#[derive(Drop)]
pub struct Words {
    text: Vec<u8>,
    is_cut: bool,
}

impl Words {
    /// No words yet.
    pub fn new(alloc: Global) -> Words {
        Words {
            text: Vec::new(alloc),
            is_cut: false,
        }
    }

    /// The whole text.
    pub fn done(self) -> Result<Vec<u8>, NoMemory> {
        if self.is_cut {
            return Err(NoMemory);
        }
        Ok(self.text)
    }

    pub fn text(&mut self, text: &[u8]) {
        if self.text.extend_from_slice(text).is_err() {
            self.is_cut = true;
        }
    }

    pub fn number(&mut self, number: u64) {
        if append_decimal(&mut self.text, number).is_err() {
            self.is_cut = true;
        }
    }

    fn hex(&mut self, byte: usize) {
        let digits = b"0123456789abcdef";
        self.text(&[digits[byte / 16 % 16], digits[byte % 16]]);
    }

    /// Bytes of an input, one character each so that carets stand where they belong: what is not printable as `?`, and what is
    /// long in part.
    pub fn shown(&mut self, bytes: &[u8], most: usize) {
        for byte in bytes.iter().take(most) {
            match *byte {
                b' '..=b'~' => self.text(&[*byte]),
                _ => self.text(b"?"),
            }
        }
        if bytes.len() > most {
            self.text(b"..");
        }
    }

    /// The sentence of a finding.
    pub fn finding(&mut self, finding: &Finding<'_>) {
        if !finding.name.is_empty() {
            self.text(b" the value of '");
            self.shown(finding.name, SHOWN);
            self.text(b"':");
        }
        for byte in row(sentences(), b"", finding.sentence).unwrap_or(b"") {
            match *byte {
                b'$' => self.shown(finding.value, SHOWN),
                b'~' => self.shown(finding.other, WIDTH),
                b'^' => self.near(Some(finding.other)),
                b'#' => self.number(finding.number),
                b'%' => self.hex((finding.number % 256) as usize),
                byte => self.text(&[byte]),
            }
        }
    }

    /// What could be meant, where there is something.
    pub fn near(&mut self, near: Option<&[u8]>) {
        let near = near.unwrap_or(b"");
        if !near.is_empty() {
            self.text(b" (");
            self.shown(near, SHOWN);
            self.text(b"?)");
        }
    }

    /// The sentence of a finding that is of no line, after `error:` or `warning:`.
    pub fn line(&mut self, prefix: &[u8], finding: &Finding<'_>) {
        self.text(prefix);
        self.finding(finding);
        self.text(b"\n");
    }

    /// The rests of the keys of a table that have this prefix.
    pub fn keys(&mut self, table: &'static str, prefix: &[u8]) {
        for line in table.as_bytes().split(|b| *b == b'\n') {
            if let Some(key) = line.strip_prefix(prefix) {
                self.text(b" ");
                self.text(first_piece(key, b':').0);
            }
        }
    }

    /// A line of an input with its number, or the part of it where the fault is, and a caret below its place.
    pub fn excerpt(&mut self, number: u64, text: &[u8], begins: bool, place: Option<usize>) {
        let at = place.unwrap_or(0).min(text.len());
        let skipped = if text.len() > WIDTH {
            at.saturating_sub(LEAD)
        } else {
            0
        };
        let is_cut = skipped > 0 || !begins;
        let start = self.text.len();
        self.number(number);
        let digits = self.text.len().saturating_sub(start);
        self.text(if is_cut { b" | .." } else { b" | " });
        self.shown(text.get(skipped..).unwrap_or(b""), WIDTH);
        self.text(b"\n");
        if place.is_some() {
            self.spaces(digits);
            self.text(if is_cut { b" |   " } else { b" | " });
            self.spaces(at.saturating_sub(skipped));
            self.text(b"^\n");
        }
    }

    fn spaces(&mut self, count: usize) {
        for _ in 0..count {
            self.text(b" ");
        }
    }
}
