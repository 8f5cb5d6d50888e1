// Whether an answer came on a connection: its dialer asks that before it dials the same address again.
use std::sync::Arc;
use std::sync::atomic::{AtomicBool, Ordering};

/// How many bytes stand before a frame's payload: three of its length, one of its type, and five further ones (RFC 9113, section 4.1).
const HEAD_BYTES: u32 = 9;

/// The type of a HEADERS frame, with which each answer begins (RFC 9113, section 6.2).
const HEADERS: u8 = 1;

/// Reads the heads of the frames that come on a connection, until one begins an answer.
#[derive(Drop)]
pub(crate) struct FirstAnswer {
    /// How many bytes of the payload of the last frame are still to come.
    payload: u32,
    /// How many bytes of the head of the next frame came.
    came: u32,
    length: u32,
    kind: u8,
    is_there: bool,
    /// Where it is notified that an answer began.
    reported: Option<Arc<AtomicBool>>,
}

impl FirstAnswer {
    /// For a connection on which nothing came so far.
    pub(crate) fn new(reported: Option<Arc<AtomicBool>>) -> FirstAnswer {
        FirstAnswer {
            payload: 0,
            came: 0,
            length: 0,
            kind: 0,
            is_there: false,
            reported,
        }
    }

    /// Bytes came. Nothing is read of those after the first answer.
    pub(crate) fn receive(&mut self, piece: &[u8]) {
        for byte in piece.iter() {
            if self.is_there {
                return;
            }
            self.receive_byte(*byte);
        }
    }

    fn receive_byte(&mut self, byte: u8) {
        if let Some(left) = self.payload.checked_sub(1) {
            self.payload = left;
            return;
        }
        match self.came {
            0..=2 => self.length = (self.length << 8) | u32::from(byte),
            3 => self.kind = byte,
            _ => {}
        }
        self.came = self.came.saturating_add(1);
        if self.came == HEAD_BYTES {
            self.end_head();
        }
    }

    /// The head of a frame is whole.
    fn end_head(&mut self) {
        if self.kind == HEADERS {
            self.is_there = true;
            if let Some(reported) = &self.reported {
                reported.store(true, Ordering::SeqCst);
            }
        }
        self.payload = self.length;
        self.length = 0;
        self.came = 0;
    }
}
