// What is wrong with a line of a script or a report.
use crate::answer::finding_in_answer;
use crate::channel::finding_in_channel;
use crate::fields::{first_wrong, named_finding};
use crate::finding::Finding;
use crate::remembered::{Line, Remembered};
use crate::table::{causes, events, lines, row};
use crate::words::Words;
use grpc_base::{first_piece, split_at_byte};
use std::alloc::Global;

/// Says why a line is bad in the input of this mode, by the text of its cause, and shows it as far as it is remembered.
pub fn say_line(
    alloc: Global,
    out: &mut Words,
    mode: &[u8],
    input: &Remembered,
    number: u64,
    cause: &[u8],
) {
    out.text(b"error: line ");
    out.number(number);
    out.text(b":");
    let end = input.end(alloc);
    let line = input.line(end.as_slice(), number);
    let finding = match line {
        Some(line) if line.begins && line.ends => {
            let is_whole = end.len() as u64 == input.bytes();
            let script = if is_whole { end.as_slice() } else { b"" };
            finding_in(alloc, mode, &line, script, cause)
        }
        _ => None,
    };
    match finding {
        Some(finding) => say_finding(out, &finding),
        None => {
            let meaning = row(causes(), mode, cause).or(row(causes(), b"", cause));
            out.text(meaning.unwrap_or(b""));
        }
    }
    out.text(b"\n");
    if let Some(line) = line {
        let place = match finding {
            Some(finding) => finding.place,
            None => None,
        };
        out.excerpt(number, line.text, line.begins, place);
    }
}

fn say_finding(out: &mut Words, finding: &Finding<'_>) {
    out.finding(finding);
    if finding.sentence == b"no-event".as_slice() {
        out.keys(events(), b"");
    }
}

/// What is wrong with a line, where all of it is there.
fn finding_in<'a>(
    alloc: Global,
    mode: &[u8],
    line: &Line<'a>,
    script: &[u8],
    cause: &[u8],
) -> Option<Finding<'a>> {
    match cause {
        b"2" | b"12" => return None,
        b"3" => return finding_in_bytes(line),
        _ => {}
    }
    let is_relay = mode == b"relay".as_slice();
    let is_live = is_relay || mode == b"live".as_slice();
    if line.text.is_empty() && is_live && !line.is_fed {
        return Some(Finding::of(b"empty-live"));
    }
    if line.text.is_empty() {
        return Some(Finding::of(b"empty-line"));
    }
    if line.text.starts_with(b"#") {
        return Some(Finding::of(b"comment"));
    }
    if mode == b"serve".as_slice() {
        return finding_in_answer(alloc, line, script);
    }
    if line.number == 1 {
        return Some(finding_in_channel(alloc, line.text));
    }
    if is_live {
        return finding_in_live(alloc, line, is_relay);
    }
    finding_in_event(alloc, mode, line.text, cause)
}

/// Which byte of a line is not text, or that no line feed ends the line.
fn finding_in_bytes<'a>(line: &Line<'a>) -> Option<Finding<'a>> {
    let text = line.text;
    let Some(at) = text.iter().position(|b| !matches!(*b, b' '..=b'~')) else {
        return Some(Finding::of(b"no-feed").at(text.len()));
    };
    let rest = text.get(at..).unwrap_or(b"");
    let finding = match rest {
        [b'\r'] => Finding::of(b"cr-lf"),
        [b'\t', ..] => Finding::of(b"tab"),
        [0xef, 0xbb, 0xbf, ..] if at == 0 && line.number == 1 => Finding::of(b"mark"),
        _ => Finding::of(b"byte").counted(u64::from(*rest.first()?)),
    };
    Some(finding.at(at))
}

/// What is wrong with a line of a live script after the first, or of one of a relay.
fn finding_in_live<'a>(alloc: Global, line: &Line<'a>, is_relay: bool) -> Option<Finding<'a>> {
    let (name, rest) = first_piece(line.text, b' ');
    if is_relay && name == b"call".as_slice() {
        return Some(Finding::of(b"relay-call").at(0));
    }
    let mode: &[u8] = if is_relay { b"relay " } else { b"live " };
    let Some(usage) = row(lines(), mode, name) else {
        if name.is_empty() {
            return Some(Finding::of(b"empty-field").at(0));
        }
        let sentence: &[u8] = if is_relay {
            b"no-relay-line"
        } else {
            b"no-line"
        };
        return Some(Finding::with(sentence, name, b"").at(0));
    };
    if name == b"config".as_slice() && line.number != 2 {
        return Some(Finding::of(b"config-line").at(0));
    }
    if name == b"config".as_slice() && rest == Some(b"-") {
        return Some(Finding::of(b"no-config").at(7));
    }
    named_finding(alloc, usage, line.text, 0)
}

/// What is wrong with the line of an event, or that it stands where none may.
fn finding_in_event<'a>(
    alloc: Global,
    mode: &[u8],
    text: &'a [u8],
    cause: &[u8],
) -> Option<Finding<'a>> {
    let line = before_reply(text);
    if mode == b"replay".as_slice() {
        if line.len() < text.len() || text.starts_with(b"row ") || text.starts_with(b"end ") {
            return Some(Finding::of(b"is-report"));
        }
        if text.starts_with(b"call ") || text.starts_with(b"config ") {
            return Some(Finding::of(b"is-live"));
        }
    }
    let Some(event) = event_in(line) else {
        return Some(Finding::of(b"line-of-events"));
    };
    let at = line.len().saturating_sub(event.len());
    let stamps = line.get(0..at.saturating_sub(1)).unwrap_or(b"");
    if let Some(finding) = first_wrong(alloc, b"<moment> <word>", stamps, 0) {
        return Some(finding);
    }
    let (name, _fields) = first_piece(event, b' ');
    if name.is_empty() {
        return Some(Finding::of(b"empty-field").at(at));
    }
    let Some(usage) = row(events(), b"", name) else {
        return Some(Finding::with(b"no-event", name, b"").at(at));
    };
    if let Some(finding) = named_finding(alloc, usage, event, at) {
        return Some(finding);
    }
    if cause == b"7".as_slice() {
        return Some(Finding::of(b"no-bytes").at(line.len().saturating_sub(1)));
    }
    Some(Finding::of(b"after-rows"))
}

/// What stands before the reply of a line of a report.
fn before_reply(text: &[u8]) -> &[u8] {
    for place in 0..text.len() {
        if text[place..].starts_with(b" = ") {
            return &text[..place];
        }
    }
    text
}

/// What stands after the moment and the word of a line.
fn event_in(line: &[u8]) -> Option<&[u8]> {
    let (_moment, rest) = split_at_byte(line, b' ')?;
    let (_word, event) = split_at_byte(rest, b' ')?;
    Some(event)
}
