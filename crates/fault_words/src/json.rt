// What is wrong with the text of a config as JSON.
use crate::finding::Finding;
use crate::walk::{Event, Walk};
use crate::words::Words;
use grpc_base::{read_number, split_at_byte};
use std::alloc::Global;

/// A place in a text, as people count: lines and columns from 1.
#[derive(Clone, Copy)]
struct Place<'a> {
    line: u64,
    /// The text of the line.
    text: &'a [u8],
    /// How many bytes of it stand before the place.
    before: usize,
}

/// The place of a byte of a text, or of the text's end.
fn place_of(text: &[u8], at: usize) -> Place<'_> {
    let mut line = 0u64;
    let mut left = at;
    for text in text.split(|b| *b == b'\n') {
        line = line.saturating_add(1);
        if left <= text.len() {
            let before = left;
            return Place { line, text, before };
        }
        left = left.saturating_sub(text.len()).saturating_sub(1);
    }
    let before = text.len();
    Place { line, text, before }
}

fn say_place(out: &mut Words, place: &Place<'_>) {
    out.text(b"line ");
    out.number(place.line);
    out.text(b", column ");
    out.number((place.before as u64).saturating_add(1));
}

/// Says the beginning of a sentence about a byte of a text.
pub fn say_prefix(out: &mut Words, text: &[u8], at: usize) {
    out.text(b"error: ");
    say_place(out, &place_of(text, at));
    out.text(b":");
}

/// Says the end of a sentence about a byte of a text, and shows its line.
pub fn say_end(out: &mut Words, text: &[u8], at: usize) {
    let place = place_of(text, at);
    out.text(b"\n");
    out.excerpt(place.line, place.text, true, Some(place.before));
}

/// Says what is wrong with a text, by the detail of its fault.
pub fn say_json(alloc: Global, out: &mut Words, text: &[u8], detail: &[u8]) {
    let (fault, at) = split_at_byte(detail, b':').unwrap_or((detail, b""));
    if fault == b"5".as_slice() {
        return out.line(b"error:", &Finding::of(b"json-long"));
    }
    let at = read_number(at).unwrap_or(0) as usize;
    say_prefix(out, text, at);
    match fault {
        b"2" => say_twice(alloc, out, text, at),
        b"3" => out.finding(&Finding::of(b"json-deep")),
        b"4" => out.finding(&Finding::of(b"json-exponent")),
        _ => {
            let mut walk = Walk::new(alloc);
            for byte in text.get(0..at).unwrap_or(text) {
                let _ = walk.step(*byte);
            }
            out.finding(&Finding::of(match text.get(at) {
                Some(byte) => fault_at(&walk, *byte),
                None => fault_at_end(&walk),
            }));
        }
    }
    say_end(out, text, at);
}

/// Says which name stands twice in one object of a text: its second opening quote is at this place.
fn say_twice(alloc: Global, out: &mut Words, text: &[u8], at: usize) {
    out.finding(&Finding::of(b"json-twice"));
    let mut later = Walk::new(alloc);
    for (place, byte) in text.iter().enumerate() {
        if later.step(*byte) == Event::Name && place > at {
            break;
        }
    }
    if let Some(first) = place_in(alloc, text, Event::Name, later.path())
        && first < at
    {
        out.text(b"; first at ");
        say_place(out, &place_of(text, first));
    }
}

/// The place where a path's name, or its value, begins first.
pub fn place_in(alloc: Global, text: &[u8], event: Event, path: &[u8]) -> Option<usize> {
    let mut walk = Walk::new(alloc);
    let mut quote = 0;
    for (place, byte) in text.iter().enumerate() {
        if *byte == b'"' && !walk.in_string {
            quote = place;
        }
        if walk.step(*byte) == event && walk.path() == path {
            return Some(if event == Event::Name { quote } else { place });
        }
    }
    None
}

/// What is wrong where a text is cut off.
fn fault_at_end(walk: &Walk) -> &'static [u8] {
    if walk.in_string {
        return b"open-string";
    }
    if walk.last == 0 {
        b"no-config-text"
    } else {
        b"open-bracket"
    }
}

/// What is wrong with a byte that cannot stand where the walk is.
fn fault_at(walk: &Walk, byte: u8) -> &'static [u8] {
    if walk.in_string {
        return match byte {
            _ if walk.is_escaped => b"escape",
            0..=0x1f => b"string-line",
            _ => b"not-utf8",
        };
    }
    match byte {
        0xef => b"json-mark",
        b'/' | b'#' => b"json-comment",
        b'\'' => b"json-quote",
        _ => fault_outside(walk, byte),
    }
}

/// What is wrong with a byte outside strings.
fn fault_outside(walk: &Walk, byte: u8) -> &'static [u8] {
    let Some(in_object) = walk.in_object() else {
        return if walk.last == 0 {
            b"json-begin"
        } else {
            b"json-after"
        };
    };
    match walk.last {
        b',' if byte == b'}' || byte == b']' => b"json-comma",
        b'{' => b"json-name",
        b',' if in_object => b"json-name",
        b'[' | b':' | b',' => b"json-value",
        b'"' if walk.is_name => b"json-colon",
        _ if byte == b'"' || byte == b'{' || byte == b'[' => b"json-between",
        _ => b"json-on",
    }
}
