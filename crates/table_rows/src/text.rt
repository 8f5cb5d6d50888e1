// The texts of a row.
use grpc_base::NoMemory;
use std::alloc::{AllocError, Global};

/// Why a row cannot be tried.
#[derive(Clone, Copy, PartialEq, Eq, Debug)]
pub enum Wrong {
    NoMemory,
    /// It has not the form of its kind.
    Form,
}

impl From<AllocError> for Wrong {
    fn from(_: AllocError) -> Wrong {
        Wrong::NoMemory
    }
}

impl From<NoMemory> for Wrong {
    fn from(_: NoMemory) -> Wrong {
        Wrong::NoMemory
    }
}

/// Appends a text in which `%` and two digits stand for a byte.
fn append_escaped(bytes: &mut Vec<u8>, text: &str) -> Result<(), Wrong> {
    let mut pieces = text.split('%');
    bytes.extend_from_slice(pieces.next().unwrap_or("").as_bytes())?;
    for piece in pieces {
        let digits = piece.get(..2).ok_or(Wrong::Form)?;
        let Ok(byte) = u8::from_str_radix(digits, 16) else {
            return Err(Wrong::Form);
        };
        bytes.extend_from_slice(&[byte])?;
        bytes.extend_from_slice(piece.get(2..).ok_or(Wrong::Form)?.as_bytes())?;
    }
    Ok(())
}

/// Appends what stands for `5*ab`.
fn append_repeated(alloc: Global, bytes: &mut Vec<u8>, text: &str) -> Result<(), Wrong> {
    let (count, item) = text.split_once('*').ok_or(Wrong::Form)?;
    let Ok(count) = count.parse::<u32>() else {
        return Err(Wrong::Form);
    };
    let mut one = Vec::new(alloc);
    append_escaped(&mut one, item)?;
    for _ in 0..count {
        bytes.extend_from_slice(one.as_slice())?;
    }
    Ok(())
}

/// The bytes of a text.
pub fn bytes_of(alloc: Global, text: &str) -> Result<Vec<u8>, Wrong> {
    let mut bytes = Vec::new(alloc);
    let mut pieces = text.split('<');
    append_escaped(&mut bytes, pieces.next().unwrap_or(""))?;
    for piece in pieces {
        let (repeated, rest) = piece.split_once('>').ok_or(Wrong::Form)?;
        append_repeated(alloc, &mut bytes, repeated)?;
        append_escaped(&mut bytes, rest)?;
    }
    Ok(bytes)
}

/// The bytes that a text spells in hex; `-` spells none.
pub fn bytes_of_hex(alloc: Global, text: &str) -> Result<Vec<u8>, Wrong> {
    let digits = bytes_of(alloc, text)?;
    if digits.as_slice() == b"-".as_slice() {
        return Ok(Vec::new(alloc));
    }
    match hex::decode(alloc, digits.as_slice()) {
        Ok(bytes) => Ok(bytes),
        Err(_) => Err(Wrong::Form),
    }
}

/// The number that a text spells.
pub fn number(text: &str) -> Result<u64, Wrong> {
    match text.parse::<u64>() {
        Ok(number) => Ok(number),
        Err(_) => Err(Wrong::Form),
    }
}

/// The part of a text of this place, from 0, between spaces; empty where it has fewer.
pub fn part(text: &str, place: usize) -> &str {
    text.split(' ').nth(place).unwrap_or("")
}
