// Each source and sink once, faults in mid-stream, and the adapters over readers and writers that a signal interrupts.
use gate_io::{
    MemSink, MemSource, ReadAnswer, Sink, Source, StdSink, StdSource, SteadySink, SteadySource,
    WriteAnswer, write_whole,
};
use std::io;
use std::test::Fail;

#[test]
fn a_source_in_memory_fails_at_the_call_that_is_named(rt: HostRuntime) -> Result<(), Fail> {
    let bytes = b"abcde".to_vec(rt.alloc())?;
    let failing = vec![in rt.alloc(); 2]?;
    let mut source = MemSource::new(bytes, 3, failing);
    let mut buf = [0u8; 4];
    assert_eq!(rt; source.read(&mut buf), ReadAnswer::Got(3));
    assert_eq!(rt; &buf[..3], b"abc".as_slice());
    assert_eq!(rt; source.read(&mut buf), ReadAnswer::Failed);
    assert_eq!(rt; source.read(&mut buf), ReadAnswer::Got(2));
    assert_eq!(rt; &buf[..2], b"de".as_slice());
    assert_eq!(rt; source.read(&mut buf), ReadAnswer::End);
    Ok(())
}

#[test]
fn a_sink_in_memory_fails_at_the_call_that_is_named(rt: HostRuntime) -> Result<(), Fail> {
    let failing = vec![in rt.alloc(); 2]?;
    let mut sink = MemSink::new(rt.alloc(), 3, failing);
    assert_eq!(rt; sink.write(b"abcde"), WriteAnswer::Took(3));
    assert!(rt; !write_whole(&mut sink, b"de"));
    assert_eq!(rt; sink.taken(), b"abc".as_slice());
    assert!(rt; write_whole(&mut sink, b"defgh"));
    assert_eq!(rt; sink.taken(), b"abcdefgh".as_slice());
    Ok(())
}

/// As long as the longest line of a script.
const LONGEST: usize = 8_400_000;

#[test]
fn a_sink_in_memory_takes_the_longest_line(rt: HostRuntime) -> Result<(), Fail> {
    let piece = vec![in rt.alloc(); b'x'; LONGEST]?;
    let mut sink = MemSink::new(rt.alloc(), 65_536, Vec::new(rt.alloc()));
    assert!(rt; write_whole(&mut sink, piece.as_slice()));
    assert!(rt; sink.taken() == piece.as_slice());
    Ok(())
}

#[test]
fn steady_ones_never_fail(rt: HostRuntime) -> Result<(), Fail> {
    let mut source = SteadySource::new(b"ab".to_vec(rt.alloc())?);
    let mut buf = [0u8; 1];
    assert_eq!(rt; source.read(&mut buf), ReadAnswer::Got(1));
    assert_eq!(rt; source.read(&mut buf), ReadAnswer::Got(1));
    assert_eq!(rt; source.read(&mut buf), ReadAnswer::End);
    let mut sink = SteadySink::new();
    assert!(rt; write_whole(&mut sink, b"abc"));
    assert_eq!(rt; sink.count(), 3);
    Ok(())
}

#[test]
fn adapters_pass_bytes_on(rt: HostRuntime) -> Result<(), Fail> {
    let mut source = StdSource::new(b"xyz".as_slice());
    let mut buf = [0u8; 8];
    assert_eq!(rt; source.read(&mut buf), ReadAnswer::Got(3));
    assert_eq!(rt; &buf[..3], b"xyz".as_slice());
    assert_eq!(rt; source.read(&mut buf), ReadAnswer::End);
    let mut sink = StdSink::new(Vec::new(rt.alloc()));
    assert_eq!(rt; sink.write(b"xyz"), WriteAnswer::Took(3));
    Ok(())
}

#[test]
fn a_read_may_fill_its_whole_buffer(rt: HostRuntime) -> Result<(), Fail> {
    let mut source = StdSource::new(b"abcdef".as_slice());
    let mut buf = [0u8; 3];
    assert_eq!(rt; source.read(&mut buf), ReadAnswer::Got(3));
    assert_eq!(rt; &buf[..], b"abc".as_slice());
    assert_eq!(rt; source.read(&mut buf), ReadAnswer::Got(3));
    assert_eq!(rt; &buf[..], b"def".as_slice());
    assert_eq!(rt; source.read(&mut buf), ReadAnswer::End);
    Ok(())
}

/// An end of a stream whose first calls end with an error of this kind, so many of them; then it gives and takes whole pieces.
#[derive(Drop)]
struct Disturbed {
    kind: io::ErrorKind,
    times: usize,
}

impl Disturbed {
    fn error(&mut self) -> Option<io::Error> {
        if self.times == 0 {
            return None;
        }
        self.times -= 1;
        Some(io::Error::from(self.kind))
    }
}

impl io::Read for Disturbed {
    fn read(&mut self, buf: &mut [u8]) -> io::Result<usize> {
        if let Some(error) = self.error() {
            return Err(error);
        }
        buf.fill(b'r');
        Ok(buf.len())
    }
}

impl io::Write for Disturbed {
    fn write(&mut self, buf: &[u8]) -> io::Result<usize> {
        if let Some(error) = self.error() {
            return Err(error);
        }
        Ok(buf.len())
    }

    fn flush(&mut self) -> io::Result<()> {
        Ok(())
    }
}

#[test]
fn what_a_signal_interrupts_is_tried_again(rt: HostRuntime) -> Result<(), Fail> {
    let kind = io::ErrorKind::Interrupted;
    let mut source = StdSource::new(Disturbed { kind, times: 1 });
    let mut buf = [0u8; 4];
    assert_eq!(rt; source.read(&mut buf), ReadAnswer::Got(4));
    assert_eq!(rt; &buf[..], b"rrrr".as_slice());
    let mut sink = StdSink::new(Disturbed { kind, times: 1 });
    assert_eq!(rt; sink.write(b"abc"), WriteAnswer::Took(3));
    Ok(())
}

#[test]
fn any_other_error_is_a_fault(rt: HostRuntime) -> Result<(), Fail> {
    let kind = io::ErrorKind::BrokenPipe;
    let mut source = StdSource::new(Disturbed { kind, times: 1 });
    let mut buf = [0u8; 4];
    assert_eq!(rt; source.read(&mut buf), ReadAnswer::Failed);
    assert_eq!(rt; source.read(&mut buf), ReadAnswer::Got(4));
    let mut sink = StdSink::new(Disturbed { kind, times: 1 });
    assert_eq!(rt; sink.write(b"abc"), WriteAnswer::Failed);
    assert_eq!(rt; sink.write(b"abc"), WriteAnswer::Took(3));
    Ok(())
}
