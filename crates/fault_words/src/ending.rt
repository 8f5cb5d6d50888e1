// What a run that ended says for people.
use crate::answer::warn_answers;
use crate::command::{mode_of, say_words};
use crate::config::{say_config, warn_config};
use crate::finding::Finding;
use crate::lines::say_line;
use crate::remembered::Remembered;
use crate::words::Words;
use grpc_base::{NoMemory, read_number, split_at_byte};
use std::alloc::Global;

/// Why a read or a write failed.
#[derive(Clone, Copy, Debug, PartialEq, Eq)]
pub enum Failure {
    /// The input is a directory.
    Directory,
    /// No space is left for the output.
    Full,
    /// The reader of the output has gone.
    Gone,
    Other,
}

/// How a run ended, and what is remembered of it.
#[derive(Clone, Copy)]
pub struct Ended<'a> {
    pub status: u8,
    pub words: &'a [String],
    /// Whether all words of the command were text; where one was not, `words` is empty.
    pub are_text: bool,
    /// The prefix of what was written to standard output: its first line, if that is a fault's.
    pub output: &'a [u8],
    pub input: &'a Remembered,
    /// Why the last read that failed did.
    pub read: Option<Failure>,
    /// Why the last write that failed did.
    pub write: Option<Failure>,
}

/// The text for standard error, in lines that end with LF; empty where there is nothing to say.
///
/// | Status | Text |
/// |---|---|
/// | 0 | of `config` the warnings; that a script or a report was empty |
/// | 2 | what is wrong with the words |
/// | 3 | what is wrong with the line or the config, and what would be right |
/// | 4 to 8 | a sentence; nothing where the reader of the output has gone |
pub fn explain(alloc: Global, ended: &Ended<'_>) -> Result<Vec<u8>, NoMemory> {
    let mut out = Words::new(alloc);
    let sentence: &[u8] = match ended.status {
        0 => {
            say_done(alloc, &mut out, ended);
            b""
        }
        2 => {
            say_words(&mut out, ended.words, ended.are_text);
            b""
        }
        3 => {
            say_fault(alloc, &mut out, ended);
            b""
        }
        4 => unread(ended),
        5 => unwritten(ended.write),
        6 => b"memory",
        7 => b"session",
        8 => b"unheard",
        _ => b"",
    };
    if !sentence.is_empty() {
        let finding = Finding::of(sentence).counted(ended.input.bytes());
        out.line(b"error:", &finding);
    }
    out.done()
}

/// The warnings about a server script that was read to its end.
pub fn warn(alloc: Global, input: &Remembered) -> Result<Vec<u8>, NoMemory> {
    let mut out = Words::new(alloc);
    warn_answers(&mut out, input.prefix());
    out.done()
}

fn say_done(alloc: Global, out: &mut Words, ended: &Ended<'_>) {
    match mode_of(ended.words) {
        b"config" => warn_config(alloc, out, ended.input.prefix()),
        b"replay" | b"migrate" if ended.input.bytes() == 0 && ended.words.len() == 1 => {
            out.line(b"warning:", &Finding::of(b"no-input"));
        }
        _ => {}
    }
}

fn say_fault(alloc: Global, out: &mut Words, ended: &Ended<'_>) {
    let (line, _rest) = split_at_byte(ended.output, b'\n').unwrap_or((b"", b""));
    if let Some(rest) = line.strip_prefix(b"fault line ")
        && let Some((number, rest)) = split_at_byte(rest, b' ')
        && let Some(number) = read_number(number)
        && let Some(cause) = rest.strip_prefix(b"cause ")
    {
        say_line(alloc, out, mode_of(ended.words), ended.input, number, cause);
    }
    if let Some(rest) = line.strip_prefix(b"fault config ")
        && let Some((fault, detail)) = split_at_byte(rest, b' ')
    {
        say_config(alloc, out, ended.input.prefix(), fault, detail);
    }
}

fn unread(ended: &Ended<'_>) -> &'static [u8] {
    match ended.read {
        Some(Failure::Directory) => b"directory",
        _ if ended.input.bytes() == 0 => b"closed",
        _ => b"unread",
    }
}

fn unwritten(write: Option<Failure>) -> &'static [u8] {
    match write {
        Some(Failure::Gone) => b"",
        Some(Failure::Full) => b"full",
        _ => b"unwritten",
    }
}
