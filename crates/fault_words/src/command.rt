// What is wrong with the words of a command.
use crate::finding::Finding;
use crate::table::{modes, nearest, options, row};
use crate::words::Words;
use grpc_base::{first_piece, read_number};
use script_fields::number_within;

/// Says why these words are refused; where a word was not text, none of them is here.
pub fn say_words(out: &mut Words, words: &[String], are_text: bool) {
    let finding = if are_text {
        finding_in(words)
    } else {
        Finding::of(b"not-text")
    };
    let mode = mode_of(words);
    out.text(b"error:");
    out.finding(&finding);
    match finding.sentence {
        b"no-mode" => out.keys(modes(), b""),
        b"bad-mode" => {
            out.near(nearest(modes(), b"", mode));
            out.text(b"; modes:");
            out.keys(modes(), b"");
        }
        b"no-option" => {
            out.near(nearest(options(), mode, first_piece(finding.value, b'=').0));
            out.text(b"; options: --help --version");
            out.keys(options(), mode);
        }
        b"a-word" => say_reads(out, mode, finding.value),
        b"missing" => {
            let absent = absent_of(mode, words).unwrap_or(b"");
            out.text(b" ");
            out.text(absent);
            out.text(b" is missing; it takes a number");
            say_range(out, mode, absent);
        }
        b"no-value" | b"no-number" | b"signed" => say_range(out, mode, finding.value),
        _ => {}
    }
    out.text(b"\nFor help: grpcc ");
    if row(modes(), b"", mode).is_some() {
        out.text(mode);
        out.text(b" ");
    }
    out.text(b"--help\n");
}

/// Says what a mode reads, and how it is given the file of this name.
fn say_reads(out: &mut Words, mode: &[u8], name: &[u8]) {
    let reads = row(modes(), b"", mode).unwrap_or(b"");
    out.text(reads);
    if reads.ends_with(b"<") {
        out.text(b" ");
        out.shown(name, 60);
    }
}

/// Says which numbers an option of a mode takes.
fn say_range(out: &mut Words, mode: &[u8], option: &[u8]) {
    let takes = row(options(), mode, option).unwrap_or(b"");
    out.text(takes.strip_suffix(b" needed").unwrap_or(takes));
}

/// The first word, or nothing.
pub fn mode_of(words: &[String]) -> &[u8] {
    match words {
        [first, ..] => first.as_bytes(),
        _ => b"",
    }
}

/// Whether the first fault of these words is a number with a sign or a leading zero, which a reader of numbers might take.
pub fn is_misspelled(words: &[String]) -> bool {
    finding_in(words).sentence == b"signed".as_slice()
}

/// The first fault of these words.
fn finding_in(words: &[String]) -> Finding<'_> {
    let [first, rest @ ..] = words else {
        return Finding::of(b"no-mode");
    };
    let mode = first.as_bytes();
    if row(modes(), b"", mode).is_some() {
        return finding_in_options(mode, rest);
    }
    if mode.starts_with(b"-") {
        return Finding::with(b"top-option", mode, b"");
    }
    Finding::with(b"bad-mode", mode, b"")
}

/// The first fault of the words after a mode.
fn finding_in_options<'a>(mode: &[u8], rest: &'a [String]) -> Finding<'a> {
    let mut open: &[u8] = b"";
    for (at, word) in rest.iter().enumerate() {
        let word = word.as_bytes();
        let (name, value) = first_piece(word, b'=');
        if !open.is_empty() {
            if let Some(finding) = finding_in_number(mode, open, word) {
                return finding;
            }
            open = b"";
        } else if matches!(word, b"--help" | b"-h" | b"--version" | b"-V") {
            return Finding::of(b"refused");
        } else if row(options(), mode, name).is_none() {
            return finding_of_word(word);
        } else if stands_in(rest.get(0..at).unwrap_or(&[]), name) {
            return Finding::with(b"twice", name, b"");
        } else if let Some(value) = value {
            if let Some(finding) = finding_in_number(mode, name, value) {
                return finding;
            }
        } else {
            open = name;
        }
    }
    if !open.is_empty() {
        return Finding::with(b"no-value", open, b"");
    }
    if absent_of(mode, rest).is_some() {
        return Finding::of(b"missing");
    }
    if stands_in(rest, b"--keepalive-timeout") && !stands_in(rest, b"--keepalive") {
        return Finding::of(b"alone");
    }
    Finding::of(b"refused")
}

/// The fault of a word that is none of a mode's options.
fn finding_of_word(word: &[u8]) -> Finding<'_> {
    if word.starts_with(b"-") {
        return Finding::with(b"no-option", word, b"");
    }
    Finding::with(b"a-word", word, b"")
}

/// The first option of a mode that is needed and does not stand in the words.
fn absent_of(mode: &[u8], rest: &[String]) -> Option<&'static [u8]> {
    for line in options().as_bytes().split(|b| *b == b'\n') {
        if let Some(line) = line.strip_prefix(mode) {
            let (name, takes) = first_piece(line, b':');
            if takes.unwrap_or(b"").ends_with(b"needed") && !stands_in(rest, name) {
                return Some(name);
            }
        }
    }
    None
}

/// Whether an option of this name stands in the words.
fn stands_in(words: &[String], name: &[u8]) -> bool {
    for word in words {
        if first_piece(word.as_bytes(), b'=').0 == name {
            return true;
        }
    }
    false
}

/// The fault of the value of an option.
fn finding_in_number<'a>(mode: &[u8], name: &'a [u8], value: &'a [u8]) -> Option<Finding<'a>> {
    let takes = row(options(), mode, name).unwrap_or(b"");
    let mut bounds = takes.split(|b| *b == b' ');
    let low = read_number(bounds.nth(2).unwrap_or(b"")).unwrap_or(0);
    let most = read_number(bounds.nth(1).unwrap_or(b"")).unwrap_or(0);
    if let Some(number) = number_within(value, most)
        && number >= low
    {
        return None;
    }
    let is_signed = match value {
        [b'+' | b'-' | b'0', rest @ ..] => {
            !rest.is_empty() && rest.iter().all(|b| b.is_ascii_digit())
        }
        _ => false,
    };
    let sentence: &[u8] = if is_signed { b"signed" } else { b"no-number" };
    Some(Finding::with(sentence, name, value))
}
