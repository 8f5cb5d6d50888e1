// What public calls answer to a row, as a text.
use grpc_base::append_decimal;
use std::alloc::Global;

/// A text that grows. Where memory is wanting it stays short, and says so.
#[derive(Drop)]
pub struct Said {
    bytes: Vec<u8>,
    is_short: bool,
}

impl Said {
    pub fn new(alloc: Global) -> Said {
        Said {
            bytes: Vec::new(alloc),
            is_short: false,
        }
    }

    /// Appends a text.
    pub fn text(&mut self, text: &[u8]) {
        if self.bytes.extend_from_slice(text).is_err() {
            self.is_short = true;
        }
    }

    /// Appends a number in decimal.
    pub fn number(&mut self, number: u64) {
        if append_decimal(&mut self.bytes, number).is_err() {
            self.is_short = true;
        }
    }

    /// Appends bytes in hex, and `-` for none.
    pub fn hex(&mut self, alloc: Global, bytes: &[u8]) {
        if bytes.is_empty() {
            self.text(b"-");
        } else if let Ok(text) = hex::encode(alloc, bytes) {
            self.text(text.as_bytes());
        } else {
            self.is_short = true;
        }
    }

    pub fn is_empty(&self) -> bool {
        self.bytes.is_empty()
    }

    /// Whether this is the text, whole.
    pub fn is(&self, text: &[u8]) -> bool {
        !self.is_short && self.bytes.as_slice() == text
    }
}
