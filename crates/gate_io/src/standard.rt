// Thin adapters over std's readers and writers, the trusted edge: they show no bytes and count faults.
ghost use Rattle.std.specs.Prelude.{◌≡◌, ◌<◌, ◌≤◌, None, IfSome, length};

use crate::{ReadAnswer, Sink, Source, WriteAnswer};
use std::io::{ErrorKind, Read, Write};

/// How often a call that a signal interrupted is made again.
pub(crate) const TRIES: u32 = 1_000_000;

/// A source over a reader, as standard input.
#[derive(Drop)]
pub struct StdSource<R> {
    reader: R,
    faults: u64,
}

impl<R: Read> StdSource<R> {
    /// A source over this reader.
    pub fn new(reader: R) -> StdSource<R> {
        StdSource { reader, faults: 0 }
    }
}

impl<R: Read> Source for StdSource<R> {
    ghost left = { λ _. None };

    ghost faults = { λ s. s.faults };

    fn read(&mut self, buf: &mut [u8]) -> ReadAnswer {
        match read_some(&mut self.reader, buf) {
            Some(0) => ReadAnswer::End,
            Some(count) => ReadAnswer::Got(count),
            None => {
                self.faults = self.faults.saturating_add(1);
                ReadAnswer::Failed
            }
        }
    }
}

/// One read, made again where a signal interrupted it; None where it failed.
fn read_some<R: Read>(reader: &mut R, buf: &mut [u8]) -> Option<usize>
    ensures { IfSome result (λ n. n ≤ length buf.new) }
{
    for _ in 0..TRIES {
        match reader.read(buf) {
            Ok(count) if count <= buf.len() => return Some(count),
            Ok(_) => return None,
            Err(error) => {
                if error.kind() != ErrorKind::Interrupted {
                    return None;
                }
            }
        }
    }
    None
}

/// A sink over a writer, as standard output.
#[derive(Drop)]
pub struct StdSink<W> {
    writer: W,
    faults: u64,
}

impl<W: Write> StdSink<W> {
    /// A sink over this writer.
    pub fn new(writer: W) -> StdSink<W> {
        StdSink { writer, faults: 0 }
    }
}

impl<W: Write> Sink for StdSink<W> {
    ghost taken = { λ _. None };

    ghost faults = { λ s. s.faults };

    fn write(&mut self, piece: &[u8]) -> WriteAnswer {
        match write_some(&mut self.writer, piece) {
            Some(count) => WriteAnswer::Took(count),
            None => {
                self.faults = self.faults.saturating_add(1);
                WriteAnswer::Failed
            }
        }
    }
}

/// One write, made again where a signal interrupted it; None where it failed or took nothing.
pub(crate) fn write_some<W: Write>(writer: &mut W, piece: &[u8]) -> Option<usize>
    ensures { IfSome result (λ n. (0 < n) × (n ≤ length piece.now)) }
{
    for _ in 0..TRIES {
        match writer.write(piece) {
            Ok(0) => return None,
            Ok(count) if count <= piece.len() => return Some(count),
            Ok(_) => return None,
            Err(error) => {
                if error.kind() != ErrorKind::Interrupted {
                    return None;
                }
            }
        }
    }
    None
}
