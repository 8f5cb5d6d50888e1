// Header blocks.
use crate::Wire;
use grpc_base::{Field, Fields, Octets};
use h2_hpack::{Decoder, HpackFault, encode_fields};
use std::alloc::Global;
use table_rows::{Said, Wrong, bytes_of, bytes_of_hex, number};

fn number_of(fault: HpackFault) -> u8 {
    match fault {
        HpackFault::BadIndex => 1,
        HpackFault::BadInteger => 2,
        HpackFault::BadHuffman => 3,
        HpackFault::BadSize => 4,
        HpackFault::TooLong => 5,
        HpackFault::NoMemory => 6,
    }
}

/// A fault by its number, as it is printed.
pub fn fault(alloc: Global, input: &str, out: &mut Said) -> Result<(), Wrong> {
    for fault in [
        HpackFault::BadIndex,
        HpackFault::BadInteger,
        HpackFault::BadHuffman,
        HpackFault::BadSize,
        HpackFault::TooLong,
        HpackFault::NoMemory,
    ] {
        if u64::from(number_of(fault)) == number(input)? {
            out.text(format!(in alloc; "{fault}")?.as_bytes());
        }
    }
    Ok(())
}

/// Appends an indexed field by its place in the dynamic table, the newest entry at 0.
fn append_index(block: &mut Vec<u8>, entry: u8) -> Result<(), Wrong> {
    let index = entry.saturating_add(62);
    if index < 127 {
        block.extend_from_slice(&[128 + index])?;
    } else {
        block.extend_from_slice(&[255, index - 127])?;
    }
    Ok(())
}

/// The fields of a decoder's dynamic table, by indexes into it; none unless it has just so many entries.
fn table_of(alloc: Global, decoder: &mut Decoder, entries: u8) -> Result<Option<Fields>, Wrong> {
    let mut all = Vec::new(alloc);
    for entry in 0..entries {
        append_index(&mut all, entry)?;
    }
    let Ok(fields) = decoder.block(all.as_slice()) else {
        return Ok(None);
    };
    let mut past = Vec::new(alloc);
    append_index(&mut past, entries)?;
    if decoder.block(past.as_slice()).err() == Some(HpackFault::BadIndex) {
        return Ok(Some(fields));
    }
    Ok(None)
}

/// How much the sizes of fields come to (RFC 7541, section 4.1).
fn size_of(fields: &[Field]) -> u64 {
    let mut size = 0u64;
    for field in fields {
        let len = field.name.len().saturating_add(field.value.len());
        size = size.saturating_add(len as u64).saturating_add(32);
    }
    size
}

/// Appends the size of the dynamic table after some blocks and one more, where it has so many entries.
fn append_table(
    alloc: Global,
    blocks: &[Vec<u8>],
    last: &[u8],
    entries: &str,
    out: &mut Said,
) -> Result<(), Wrong> {
    let Ok(entries) = u8::try_from(number(entries)?) else {
        return Err(Wrong::Form);
    };
    let mut decoder = Decoder::new(alloc);
    for block in blocks {
        if decoder.block(block.as_slice()).is_err() {
            return Err(Wrong::Form);
        }
    }
    if decoder.block(last).is_err() {
        return Err(Wrong::Form);
    }
    match table_of(alloc, &mut decoder, entries)? {
        Some(fields) => out.number(size_of(fields.as_slice())),
        None => out.text(b"another table"),
    }
    Ok(())
}

/// Appends what a block says.
fn append_said(decoder: &mut Decoder, block: &[u8], out: &mut Said) {
    match decoder.block(block) {
        Ok(fields) => {
            out.text(b":");
            for field in fields.as_slice() {
                out.text(b" ");
                out.text(field.name.as_slice());
                out.text(b"=");
                out.text(field.value.as_slice());
                out.text(b" |");
            }
        }
        Err(fault) => {
            out.text(b"fault ");
            out.number(u64::from(number_of(fault)));
        }
    }
}

/// What a block says after those before it, and the size of the dynamic table then, where a row says how many entries that has.
pub fn block(alloc: Global, wire: &mut Wire, input: &str, out: &mut Said) -> Result<(), Wrong> {
    let (text, entries) = input.split_once(' ').ok_or(Wrong::Form)?;
    let bytes = bytes_of_hex(alloc, text)?;
    if entries != "-" {
        append_table(alloc, wire.sent.as_slice(), bytes.as_slice(), entries, out)?;
    }
    append_said(&mut wire.decoder, bytes.as_slice(), out);
    wire.sent.push(bytes).ok().ok_or(Wrong::NoMemory)
}

/// The fields of words like `name=value`.
pub fn fields_of(alloc: Global, line: &str) -> Result<Fields, Wrong> {
    let mut fields = Fields::new(alloc);
    for item in line.split(' ') {
        if let Some((name, value)) = item.split_once('=') {
            let name = Octets::of_vec(bytes_of(alloc, name)?)?;
            let value = Octets::of_vec(bytes_of(alloc, value)?)?;
            fields.push(Field { name, value })?;
        }
    }
    Ok(fields)
}

/// The block that fields are written as, in hex.
pub fn fields(alloc: Global, input: &str, out: &mut Said) -> Result<(), Wrong> {
    let block = encode_fields(alloc, &fields_of(alloc, input)?)?;
    out.hex(alloc, block.as_slice());
    Ok(())
}
