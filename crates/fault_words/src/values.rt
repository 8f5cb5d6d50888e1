// What is wrong with values that have a form of their own: bytes, metadata, addresses, timeouts.
use crate::finding::Finding;
use grpc_base::{MetaFault, Metadata, split_at_byte};
use script_fields::{address_of, bytes_of, number_within};
use std::alloc::Global;

/// Why this text is not bytes in hex, or too many of them.
pub fn finding_in_hex(text: &[u8]) -> Finding<'_> {
    if text.iter().all(|b| matches!(*b, b'0'..=b'9' | b'a'..=b'f')) {
        if text.len() % 2 == 0 {
            return Finding::of(b"long-hex").counted(text.len() as u64 / 2);
        }
        return Finding::of(b"odd-hex").counted(text.len() as u64);
    }
    if text.iter().all(|b| b.is_ascii_hexdigit()) {
        return Finding::of(b"capital-hex");
    }
    Finding::with(b"hex", text, b"")
}

/// Why this text is not metadata of a request.
pub fn finding_in_meta(alloc: Global, text: &[u8]) -> Finding<'_> {
    let mut meta = Metadata::new(alloc);
    for item in text.split(|b| *b == b',') {
        let Some((name, digits)) = split_at_byte(item, b':') else {
            return Finding::with(b"no-colon", item, b"");
        };
        let Ok(Some(value)) = bytes_of(alloc, digits) else {
            return Finding {
                name,
                ..finding_in_hex(digits)
            };
        };
        match meta.push(name, value.as_slice()) {
            Ok(()) => {}
            Err(MetaFault::BadName) => return Finding::with(b"meta-name", name, b""),
            Err(MetaFault::BadValue) => return Finding::with(b"meta-value", name, b""),
            Err(_) => return Finding::of(b"meta-long"),
        }
    }
    Finding::of(b"meta-long")
}

/// Why this text is not the addresses of a result.
pub fn finding_in_addresses(text: &[u8]) -> Finding<'_> {
    for item in text.split(|b| *b == b',') {
        if address_of(item).is_none() {
            if are_of_numbers(item) && !item.contains(&b':') {
                return Finding::with(b"no-port", item, b"");
            }
            return Finding::with(b"no-address", item, b"");
        }
    }
    Finding::of(b"addresses")
}

/// Whether this has the bytes of addresses alone, one at least.
pub fn are_of_numbers(text: &[u8]) -> bool {
    !text.is_empty()
        && text
            .iter()
            .all(|b| matches!(*b, b'0'..=b'9' | b'.' | b':' | b','))
}

/// Why this text is not a timeout, and how many nanoseconds it would be.
pub fn finding_in_timeout(text: &[u8]) -> Finding<'_> {
    let (digits, unit) = if let Some(digits) = text.strip_suffix(b"ms") {
        (digits, 1_000_000)
    } else if let Some(digits) = text.strip_suffix(b"s") {
        (digits, 1_000_000_000)
    } else {
        (text, 0)
    };
    match number_within(digits, 1_000_000_000) {
        Some(number) if unit > 0 => Finding {
            number: number * unit,
            ..Finding::with(b"timeout-unit", text, b"")
        },
        _ => Finding::with(b"<timeout>", text, b""),
    }
}
