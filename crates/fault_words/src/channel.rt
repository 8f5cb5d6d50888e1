// What is wrong with the first line of a script.
use crate::finding::Finding;
use crate::values::are_of_numbers;
use grpc_base::{first_piece, split_at_byte};
use resolver_core::{TargetFault, read_any_target};
use std::alloc::Global;

/// Why this is no channel line, or why its target is none.
pub fn finding_in_channel(alloc: Global, text: &[u8]) -> Finding<'_> {
    if text.starts_with(b"{") {
        return Finding::of(b"is-config");
    }
    if text.starts_with(b"answer ") {
        return Finding::of(b"is-server");
    }
    let (word, rest) = first_piece(text, b' ');
    let (version, target) = first_piece(rest.unwrap_or(b""), b' ');
    if word != b"channel".as_slice() || version.is_empty() {
        return Finding::of(b"no-channel").at(0);
    }
    if version != b"1".as_slice() && version != b"2".as_slice() {
        return Finding::with(b"no-version", version, b"").at(8);
    }
    match target {
        Some(target) if !target.contains(&b' ') => finding_in_target(alloc, target).at(10),
        _ => Finding::with(b"takes", word, b" 2 <target>").at(0),
    }
}

/// Why this text is no target.
fn finding_in_target(alloc: Global, text: &[u8]) -> Finding<'_> {
    match read_any_target(alloc, text) {
        Err(TargetFault::TooMany) => return Finding::of(b"addresses"),
        Err(TargetFault::BadHost) => return Finding::with(b"no-host", text, b""),
        _ => {}
    }
    if are_of_numbers(text) {
        return Finding::with(b"no-scheme", text, b"");
    }
    let host = text.strip_prefix(b"http://").unwrap_or(text);
    match split_at_byte(host, b':') {
        Some((name, port)) if is_host(name) && are_of_numbers(port) => {
            Finding::with(b"near-target", text, host)
        }
        _ => Finding::with(b"no-target", text, b""),
    }
}

/// Whether this has the bytes of a host's name alone.
fn is_host(text: &[u8]) -> bool {
    text.iter().all(|b| matches!(*b, b'a'..=b'z' | b'A'..=b'Z' | b'0'..=b'9' | b'.' | b'-'))
}
