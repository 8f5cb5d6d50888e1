// Standard input and output, as they are remembered for the words on standard error; and these words.
use crate::NO_MEMORY;
use fault_words::{Ended, Failure, Remembered, explain, warn};
use run_words::RunTally;
use std::alloc::Global;
use std::io;
use std::io::{ErrorKind, IsTerminal, Read, Write};

/// How many of the first bytes of standard output are remembered: more than a fault line has.
const PREFIX: usize = 256;

/// The status where a session had no room for an event.
const SESSION_FULL: u8 = 7;

/// A reader that remembers what it read, and why a read failed. It says on standard error that it reads from a terminal, and at the
/// end of a server script what is strange in it.
#[derive(Drop)]
pub struct Remembering<R, E> {
    rt: E,
    alloc: Global,
    reader: R,
    input: Remembered,
    failure: Option<Failure>,
    /// Whether a read was begun.
    has_begun: bool,
    /// Whether it is a server script whose end was not read yet.
    is_served: bool,
}

impl<R: Read + IsTerminal, E: Eprint> Remembering<R, E> {
    /// A reader over this one, for the input of the mode that these words name.
    pub fn new(alloc: Global, rt: E, words: &[String], reader: R) -> Remembering<R, E> {
        let is_served = match words {
            [first, ..] => first.as_bytes() == b"serve".as_slice(),
            _ => false,
        };
        Remembering {
            rt,
            alloc,
            reader,
            input: Remembered::new(alloc),
            failure: None,
            has_begun: false,
            is_served,
        }
    }
}

/// Says before the first read that it is from a terminal.
fn begin<R: IsTerminal, E: Eprint>(rt: &E, reader: &R, has_begun: &mut bool) {
    if !*has_begun && reader.is_terminal() {
        print(rt, b"reading from the terminal; end with Ctrl-D\n");
    }
    *has_begun = true;
}

/// Says at the end of a server script what is strange in it, where its beginning that is remembered is all of it.
fn end<E: Eprint>(rt: &E, alloc: Global, input: &Remembered, is_served: &mut bool) {
    let is_whole = input.prefix().len() as u64 == input.bytes();
    if *is_served
        && is_whole
        && let Ok(text) = warn(alloc, input)
    {
        print(rt, text.as_slice());
    }
    *is_served = false;
}

impl<R: Read + IsTerminal, E: Eprint> Read for Remembering<R, E> {
    ghost remaining = { λ r. R.remaining r.reader };

    fn read(&mut self, buf: &mut [u8]) -> io::Result<usize> {
        begin(&self.rt, &self.reader, &mut self.has_begun);
        match self.reader.read(buf) {
            Ok(0) => {
                end(&self.rt, self.alloc, &self.input, &mut self.is_served);
                Ok(0)
            }
            Ok(count) => {
                self.input.take(&buf[..count]);
                Ok(count)
            }
            Err(error) => {
                self.failure = Some(failure_of(error.kind()));
                Err(error)
            }
        }
    }
}

/// A writer that remembers the first bytes of what it wrote, and why a write failed. Of a run over a network it counts how its calls ended.
#[derive(Drop)]
pub struct FirstBytesKept<W> {
    writer: W,
    prefix: [u8; PREFIX],
    /// How many bytes that is.
    count: usize,
    failure: Option<Failure>,
    tally: Option<RunTally>,
}

impl<W: Write> FirstBytesKept<W> {
    /// A writer over this one, for the output of the mode that these words name.
    pub fn new(words: &[String], writer: W) -> FirstBytesKept<W> {
        let tally = match words {
            [first, ..] if first.as_bytes() == b"live".as_slice() => Some(RunTally::new()),
            _ => None,
        };
        FirstBytesKept {
            writer,
            prefix: [0; PREFIX],
            count: 0,
            failure: None,
            tally,
        }
    }
}

impl<W> FirstBytesKept<W> {
    /// The first bytes of what was written.
    fn first_bytes(&self) -> &[u8] {
        match self.prefix.as_slice().get(0..self.count) {
            Some(prefix) => prefix,
            None => &[],
        }
    }
}

impl<W: Write> Write for FirstBytesKept<W> {
    ghost contents = { λ w. W.contents w.writer };

    fn write(&mut self, buf: &[u8]) -> io::Result<usize> {
        match self.writer.write(buf) {
            Ok(count) => {
                keep(&mut self.prefix, &mut self.count, &buf[..count]);
                if let Some(tally) = &mut self.tally {
                    tally.take(&buf[..count]);
                }
                Ok(count)
            }
            Err(error) => {
                self.failure = Some(failure_of(error.kind()));
                Err(error)
            }
        }
    }

    fn flush(&mut self) -> io::Result<()> {
        self.writer.flush()
    }
}

/// Appends to these first bytes what they have room for.
fn keep(prefix: &mut [u8; PREFIX], count: &mut usize, piece: &[u8]) {
    for byte in piece {
        if *count >= PREFIX {
            return;
        }
        prefix[*count] = *byte;
        *count += 1;
    }
}

fn failure_of(kind: ErrorKind) -> Failure {
    match kind {
        ErrorKind::IsADirectory => Failure::Directory,
        ErrorKind::StorageFull => Failure::Full,
        ErrorKind::BrokenPipe => Failure::Gone,
        _ => Failure::Other,
    }
}

/// Says on standard error how a run on these words ended. Where a word of the command was not text, `words` is empty.
pub fn reporting<E: Eprint, R, T, W>(
    rt: &E,
    alloc: Global,
    status: u8,
    words: &[String],
    are_text: bool,
    input: &Remembering<R, T>,
    output: &FirstBytesKept<W>,
) {
    let ended = Ended {
        status,
        words,
        are_text,
        output: output.first_bytes(),
        input: &input.input,
        read: input.failure,
        write: output.failure,
    };
    match explain(alloc, &ended) {
        Ok(text) => print(rt, text.as_slice()),
        Err(_) if status == NO_MEMORY => print(rt, b"error: out of memory\n"),
        Err(_) => {}
    }
    sum_up(rt, alloc, &ended, &output.tally);
}

/// Says of a run over a network whose report was written how its calls ended.
fn sum_up<E: Eprint>(rt: &E, alloc: Global, ended: &Ended<'_>, tally: &Option<RunTally>) {
    let is_written = ended.status == 0 || ended.status == SESSION_FULL;
    if let [mode, ..] = ended.words
        && let Some(tally) = tally
        && is_written
        && let Ok(text) = tally.words(alloc, mode.as_bytes())
    {
        print(rt, text.as_slice());
    }
}

/// Prints on standard error; where that fails, there is nobody left to say it to.
fn print<E: Eprint>(rt: &E, text: &[u8]) {
    if let Ok(text) = std::str::from_utf8(text) {
        let _ = rt.eprint(text);
    }
}
