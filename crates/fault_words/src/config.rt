// What is wrong, or strange, with the fields of a config.
use crate::finding::Finding;
use crate::json::{place_in, say_end, say_json, say_prefix};
use crate::table::{config_fields, nearest, policies, row};
use crate::walk::{Event, Walk};
use crate::words::Words;
use grpc_base::read_number;
use std::alloc::Global;

/// The most attempts that count.
const ATTEMPTS: u64 = 5;

/// Says what is wrong with the text of a config, by the number and the detail of its fault, after the warnings.
pub fn say_config(alloc: Global, out: &mut Words, text: &[u8], fault: &[u8], detail: &[u8]) {
    if fault == b"1".as_slice() {
        return say_json(alloc, out, text, detail);
    }
    warn_config(alloc, out, text);
    match fault {
        b"4" => say_name(alloc, out, text, detail),
        b"5" => say_policy(alloc, out, text),
        _ => say_field(alloc, out, text, fault, detail),
    }
}

/// Says what stands at a path, and what it takes; or that an entry has both policies.
fn say_field(alloc: Global, out: &mut Words, text: &[u8], fault: &[u8], path: &[u8]) {
    let (prefix, _name) = cut(path);
    let place = place_in(alloc, text, Event::Value, path);
    let at = match place {
        Some(at) => at,
        None => place_in(alloc, text, Event::Value, prefix).unwrap_or(0),
    };
    say_prefix(out, text, at);
    if fault == b"3".as_slice() {
        out.finding(&Finding::with(b"both", path, b""));
        return say_end(out, text, at);
    }
    if place.is_some() {
        out.finding(&Finding::with(b"field-wrong", path, b""));
        say_value(alloc, out, text, at);
        out.text(b" stands there; it takes");
    } else {
        out.finding(&Finding::with(b"field-missing", path, b""));
    }
    out.text(row(config_fields(), b"", kind_of(alloc, path).as_slice()).unwrap_or(b""));
    say_end(out, text, at);
}

/// The value that begins at a place, as the text has it, and how many fields or values stand in it.
fn value_at(alloc: Global, text: &[u8], at: usize) -> (&[u8], u64) {
    let rest = text.get(at..).unwrap_or(b"");
    let mut walk = Walk::new(alloc);
    for (end, byte) in rest.iter().enumerate() {
        let is_part = !matches!(
            *byte,
            b',' | b':' | b'}' | b']' | b' ' | b'\t' | b'\r' | b'\n'
        );
        if end > 0 && walk.is_outside() && !is_part {
            return (rest.get(0..end).unwrap_or(rest), walk.count);
        }
        let _ = walk.step(*byte);
    }
    (rest, walk.count)
}

/// Says what the value at a place is.
fn say_value(alloc: Global, out: &mut Words, text: &[u8], at: usize) {
    let (value, count) = value_at(alloc, text, at);
    let (container, part): (&[u8], &[u8]) = match value {
        [b'{', ..] => (b"an object with ", b" field"),
        [b'[', ..] => (b"a list with ", b" value"),
        _ => return out.shown(value, 60),
    };
    out.text(container);
    out.number(count);
    out.text(part);
    if count != 1 {
        out.text(b"s");
    }
}

/// Says which name of methods stands a second time, at this path.
fn say_name(alloc: Global, out: &mut Words, text: &[u8], path: &[u8]) {
    let at = place_in(alloc, text, Event::Value, path).unwrap_or(0);
    let (service, method) = name_at(alloc, text, at);
    say_prefix(out, text, at);
    out.finding(&Finding::with(b"name-twice", path, b""));
    out.shown(or_star(service), 60);
    out.text(b"/");
    out.shown(or_star(method), 60);
    out.text(b" stands a second time");
    let mut walk = Walk::new(alloc);
    for (place, byte) in text.iter().enumerate() {
        if walk.step(*byte) == Event::Value
            && kind_of(alloc, walk.path()).as_slice() == b"methodConfig[].name[]".as_slice()
            && name_at(alloc, text, place) == (service, method)
        {
            out.text(b"; first at ");
            out.text(walk.path());
            break;
        }
    }
    say_end(out, text, at);
}

/// The service and the method of the name that begins at a place, without quotes, empty where they are absent.
fn name_at(alloc: Global, text: &[u8], at: usize) -> (&[u8], &[u8]) {
    let (name, _count) = value_at(alloc, text, at);
    (
        text_in(alloc, name, b"service"),
        text_in(alloc, name, b"method"),
    )
}

/// The text in a field of an object, without quotes.
fn text_in<'a>(alloc: Global, object: &'a [u8], field: &[u8]) -> &'a [u8] {
    match place_in(alloc, object, Event::Value, field) {
        Some(at) => unquoted(value_at(alloc, object, at).0),
        None => b"",
    }
}

fn unquoted(text: &[u8]) -> &[u8] {
    let text = text.strip_prefix(b"\"").unwrap_or(text);
    text.strip_suffix(b"\"").unwrap_or(text)
}

fn or_star(text: &[u8]) -> &[u8] {
    if text.is_empty() { b"*" } else { text }
}

/// Says which policies are supported, and the first one that was asked for.
fn say_policy(alloc: Global, out: &mut Words, text: &[u8]) {
    let list = place_in(alloc, text, Event::Value, b"loadBalancingConfig");
    let at = match list {
        Some(at) => at,
        None => place_in(alloc, text, Event::Value, b"loadBalancingPolicy").unwrap_or(0),
    };
    let (value, _count) = value_at(alloc, text, at);
    let quote = value.iter().position(|b| *b == b'"');
    let asked = value_at(alloc, value, quote.unwrap_or(0)).0;
    say_prefix(out, text, at.saturating_add(quote.unwrap_or(0)));
    let near = nearest(policies(), b"", unquoted(asked)).unwrap_or(b"");
    if quote.is_none() {
        out.finding(&Finding::of(b"no-policy"));
    } else {
        out.finding(&Finding::with(b"bad-policy", asked, near));
    }
    out.keys(policies(), b"");
    say_end(out, text, at.saturating_add(quote.unwrap_or(0)));
}

/// Warns of the fields of a config that are passed over, and of values that are not taken as they stand.
pub fn warn_config(alloc: Global, out: &mut Words, text: &[u8]) {
    let mut walk = Walk::new(alloc);
    for (at, byte) in text.iter().enumerate() {
        match walk.step(*byte) {
            Event::Nothing => {}
            Event::Name => warn_name(alloc, out, walk.path()),
            Event::Value => {
                let kind = kind_of(alloc, walk.path());
                warn_value(
                    out,
                    walk.path(),
                    kind.as_slice(),
                    value_at(alloc, text, at).0,
                );
            }
        }
    }
}

/// Warns of a field that is passed over in an object whose other fields are read.
fn warn_name(alloc: Global, out: &mut Words, path: &[u8]) {
    let kind = kind_of(alloc, path);
    let (prefix, name) = cut(kind.as_slice());
    if row(config_fields(), b"", kind.as_slice()).is_some() || !has_fields(prefix) {
        return;
    }
    let prefix = if prefix.is_empty() {
        prefix
    } else {
        kind.as_slice().get(0..prefix.len() + 1).unwrap_or(prefix)
    };
    let near = nearest(config_fields(), prefix, name).unwrap_or(b"");
    out.line(b"warning:", &Finding::with(b"passed", path, near));
}

/// Whether fields are read of the objects at a path; at the top they are.
fn has_fields(prefix: &[u8]) -> bool {
    if prefix.is_empty() {
        return true;
    }
    for line in config_fields().as_bytes().split(|b| *b == b'\n') {
        if let Some(rest) = line.strip_prefix(prefix)
            && rest.starts_with(b".")
        {
            return true;
        }
    }
    false
}

/// Warns of a value that is not taken as it stands.
fn warn_value(out: &mut Words, path: &[u8], kind: &[u8], value: &[u8]) {
    if kind.ends_with(b"Policy.maxAttempts")
        && let Some(number) = read_number(value)
        && number > ATTEMPTS
    {
        out.line(b"warning:", &Finding::with(b"five", path, value));
    }
    if kind.starts_with(b"methodConfig[].name[].") && value.starts_with(b"\"/") {
        out.line(b"warning:", &Finding::with(b"slash", path, value));
    }
}

/// A path before its last point, and its last name.
fn cut(path: &[u8]) -> (&[u8], &[u8]) {
    match path.iter().rposition(|b| *b == b'.') {
        Some(at) => (&path[..at], &path[at + 1..]),
        None => (b"", path),
    }
}

/// A path without the places of elements.
fn kind_of(alloc: Global, path: &[u8]) -> Vec<u8> {
    let mut kind = Vec::new(alloc);
    for byte in path {
        if !byte.is_ascii_digit() || kind.as_slice().last() != Some(&b'[') {
            let _ = kind.push(*byte);
        }
    }
    kind
}
