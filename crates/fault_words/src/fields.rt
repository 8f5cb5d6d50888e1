// What is wrong with the fields of a line.
use crate::finding::Finding;
use crate::values::{finding_in_addresses, finding_in_hex, finding_in_meta, finding_in_timeout};
use grpc_base::limits::{MESSAGE_BYTES, PATH_BYTES};
use grpc_base::{Moment, first_piece, is_path};
use script_fields::{
    addresses_of, config_of, message_of, meta_of, number_within, timeout_of, wait_of, word_of_hex,
};
use std::alloc::Global;

/// The most messages of a call.
const MESSAGES: usize = 64;

/// What is wrong with a line that begins with its name, at this place, and goes on with the fields of a usage.
pub fn named_finding<'a>(
    alloc: Global,
    usage: &'static [u8],
    text: &'a [u8],
    at: usize,
) -> Option<Finding<'a>> {
    let has = text.split(|b| *b == b' ').count();
    let takes = usage.split(|b| *b == b' ').count();
    let repeats = usage.ends_with(b"..");
    if has.saturating_add(1) < takes || (has != takes && !repeats) {
        let (name, _fields) = first_piece(text, b' ');
        return Some(match empty_field(text) {
            Some(place) => Finding::of(b"empty-field").at(at.saturating_add(place)),
            None => Finding::with(b"takes", name, usage).at(at),
        });
    }
    let messages = has.saturating_sub(takes).saturating_add(1);
    if repeats && messages > MESSAGES {
        return Some(Finding::of(b"messages").counted(messages as u64));
    }
    first_wrong(alloc, usage, text, at)
}

/// The place of the first field that is empty.
fn empty_field(text: &[u8]) -> Option<usize> {
    let mut place = 0usize;
    for field in text.split(|b| *b == b' ') {
        if field.is_empty() {
            return Some(place);
        }
        place = place.saturating_add(field.len()).saturating_add(1);
    }
    None
}

/// The first field of a text that is refused where the usage has it; the last word of the usage stands for all further fields.
pub fn first_wrong<'a>(
    alloc: Global,
    usage: &'static [u8],
    text: &'a [u8],
    at: usize,
) -> Option<Finding<'a>> {
    let mut left = usage;
    let mut place = at;
    for field in text.split(|b| *b == b' ') {
        let (kind, rest) = first_piece(left, b' ');
        if refuses(alloc, kind, field) {
            return Some(finding_in_field(alloc, kind, field).at(place));
        }
        if let Some(rest) = rest {
            left = rest;
        }
        place = place.saturating_add(field.len()).saturating_add(1);
    }
    None
}

/// Whether a field of this kind refuses a text, as the reader of scripts does; a want of memory refuses nothing.
fn refuses(alloc: Global, kind: &[u8], text: &[u8]) -> bool {
    match kind {
        b"" | b"<parts>" => false,
        b"<moment>" => number_within(text, Moment::LIMIT).is_none(),
        b"<word>" => number_within(text, u64::MAX).is_none(),
        b"<worker>" => !matches!(number_within(text, 16), Some(1..)),
        b"<path>" => !is_path(text),
        b"<wait>" => wait_of(text).is_none(),
        b"<timeout>" => timeout_of(text).is_err(),
        b"<metadata>" => matches!(meta_of(alloc, text), Ok(None)),
        b"<addresses>" => addresses_of(text).is_err(),
        b"<config>" => config_of(alloc, text).is_err(),
        b"<hex>" | b"<hex>.." => message_of(alloc, text, MESSAGE_BYTES).is_err(),
        b"<digits>" => word_of_hex(text).is_none(),
        _ => number_within(text, u32::MAX as u64).is_none(),
    }
}

/// What is wrong with a field that is refused.
fn finding_in_field<'a>(alloc: Global, kind: &'static [u8], text: &'a [u8]) -> Finding<'a> {
    if text.is_empty() {
        return Finding::of(b"empty-field");
    }
    match kind {
        b"<metadata>" => finding_in_meta(alloc, text),
        b"<addresses>" => finding_in_addresses(text),
        b"<config>" | b"<hex>" | b"<hex>.." => finding_in_hex(text),
        b"<timeout>" => finding_in_timeout(text),
        b"<path>" if text.len() > PATH_BYTES => Finding::of(b"long-path").counted(
            text.len() as u64,
        ),
        _ => Finding::with(kind, text, b""),
    }
}
