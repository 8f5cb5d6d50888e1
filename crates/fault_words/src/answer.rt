// What is wrong, or strange, with the lines of a server script.
use crate::fields::named_finding;
use crate::finding::Finding;
use crate::remembered::Line;
use crate::table::{lines, reset_codes, row, statuses};
use crate::values::finding_in_hex;
use crate::words::Words;
use grpc_base::limits::PUSHBACK_BYTES;
use grpc_base::{first_piece, read_number};
use script_fields::number_within;
use std::alloc::Global;

/// What is wrong with the line of an answer in this script, which is empty where it is not remembered whole.
pub fn finding_in_answer<'a>(alloc: Global, line: &Line<'a>, script: &[u8]) -> Option<Finding<'a>> {
    let (name, rest) = first_piece(line.text, b' ');
    if name != b"answer".as_slice() {
        return Some(Finding::with(b"no-answer", name, b"").at(0));
    }
    let usage = row(lines(), b"serve ", name).unwrap_or(b"");
    if let Some(finding) = named_finding(alloc, usage, line.text, 0) {
        return Some(finding);
    }
    let (path, rest) = first_piece(rest.unwrap_or(b""), b' ');
    let (n, parts) = first_piece(rest.unwrap_or(b""), b' ');
    let turn = turn_of(script, line.number, path);
    if !script.is_empty() && read_number(n) != Some(turn) {
        let place = path.len().saturating_add(8);
        return Some(Finding::with(b"turn", n, b"").counted(turn).at(place));
    }
    let parts = parts.unwrap_or(b"");
    finding_in_parts(parts, line.text.len().saturating_sub(parts.len()))
}

/// The number of the next answer of a path: one more than the lines of that path before the line of this number.
fn turn_of(script: &[u8], line: u64, path: &[u8]) -> u64 {
    let mut turn = 1u64;
    let mut number = 1u64;
    for text in script.split(|b| *b == b'\n') {
        if number >= line {
            break;
        }
        number = number.saturating_add(1);
        if let Some(rest) = text.strip_prefix(b"answer ")
            && first_piece(rest, b' ').0 == path
        {
            turn = turn.saturating_add(1);
        }
    }
    turn
}

/// The first part that is wrong.
fn finding_in_parts(parts: &[u8], at: usize) -> Option<Finding<'_>> {
    let mut place = at;
    let mut ended: &[u8] = b"";
    for part in parts.split(|b| *b == b',') {
        if !ended.is_empty() && part != b"g".as_slice() {
            return Some(Finding::with(b"after-end", part, ended).at(place));
        }
        if let Some(finding) = finding_in_part(part) {
            return Some(finding.at(place));
        }
        if part.starts_with(b"s") || part.starts_with(b"r") {
            ended = part;
        }
        place = place.saturating_add(part.len()).saturating_add(1);
    }
    None
}

/// What is wrong with a part.
fn finding_in_part(part: &[u8]) -> Option<Finding<'_>> {
    match part {
        b"h" | b"g" => None,
        [b'm', bytes @ ..] => {
            let is_hex = bytes
                .iter()
                .all(|b| matches!(*b, b'0'..=b'9' | b'a'..=b'f'));
            if is_hex && bytes.len() % 2 == 0 {
                return None;
            }
            Some(finding_in_hex(bytes))
        }
        [b's' | b'r' | b'w', number @ ..] => {
            if number_within(number, u32::MAX as u64).is_some() {
                return None;
            }
            Some(finding_in_name(part, number))
        }
        [b'p', text @ ..] if !text.is_empty() && text.len() <= PUSHBACK_BYTES => None,
        [b'p', ..] => Some(Finding::of(b"pushback")),
        _ => Some(Finding::with(b"no-part", part, b"")),
    }
}

/// What is wrong with the number of a part, which may be the name of a status or of a reset code.
fn finding_in_name<'a>(part: &'a [u8], name: &'a [u8]) -> Finding<'a> {
    let names = if part.starts_with(b"s") {
        statuses()
    } else {
        reset_codes()
    };
    let mut names = names.as_bytes().split(|b| *b == b' ');
    match names.position(|known| known.eq_ignore_ascii_case(name)) {
        Some(number) => Finding::with(b"part-name", name, b"").counted(number as u64),
        None => Finding::with(b"part-number", name, b""),
    }
}

/// Warns of the answers of a script that a client can make little of.
pub fn warn_answers(out: &mut Words, script: &[u8]) {
    let mut number = 0u64;
    for line in script.split(|b| *b == b'\n') {
        number = number.saturating_add(1);
        if !line.is_empty() {
            let parts = line.rsplit(|b| *b == b' ').next().unwrap_or(b"");
            warn_parts(out, number, parts);
        }
    }
}

/// Warns of the parts of an answer.
fn warn_parts(out: &mut Words, line: u64, parts: &[u8]) {
    let mut has_end = false;
    for part in parts.split(|b| *b == b',') {
        let finding = match part {
            b"w0" => Some(Finding::of(b"no-wait")),
            [b's', number @ ..] => strange(b"no-status", number, 16),
            [b'r', number @ ..] => strange(b"no-code", number, 13),
            _ => None,
        };
        has_end = has_end || part.starts_with(b"s") || part.starts_with(b"r");
        if let Some(finding) = finding {
            warn(out, line, &finding);
        }
    }
    if !has_end {
        warn(out, line, &Finding::of(b"no-end"));
    }
}

/// A number that is above those with a name.
fn strange<'a>(sentence: &'a [u8], number: &'a [u8], most: u64) -> Option<Finding<'a>> {
    if number_within(number, most).is_some() {
        return None;
    }
    Some(Finding::with(sentence, number, b""))
}

fn warn(out: &mut Words, line: u64, finding: &Finding<'_>) {
    out.text(b"warning: line ");
    out.number(line);
    out.text(b":");
    out.finding(finding);
    out.text(b"\n");
}
