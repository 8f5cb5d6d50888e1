// Limits of many bytes and of many lines.
use grpc_base::{AnswerPart, Event};
use script_lines::{BadLine, LineFault, ScriptKind, ScriptLine, ScriptReader, test_line};
use std::alloc::{AllocError, Global};
use std::test::Fail;

/// What a reader reports of one line, after the channel line where the kind has one.
fn reported_line(alloc: Global, kind: ScriptKind, text: &[u8], closed: bool) -> (u64, u8) {
    let mut reader = ScriptReader::new(alloc, kind);
    if kind != ScriptKind::Server && reader.line(b"channel 1 ipv4:1.2.3.4", true).is_err() {
        return (0, 255);
    }
    reported(&mut reader, text, closed)
}

/// What a reader reports of its next line.
fn reported(reader: &mut ScriptReader, text: &[u8], closed: bool) -> (u64, u8) {
    match reader.line(text, closed) {
        Ok(_) => (0, 0),
        Err(BadLine::At { line, cause }) => (line, cause),
        Err(BadLine::NoMemory) => (0, 255),
    }
}

/// A head, so often an item, and a tail.
fn repeated(
    alloc: Global,
    head: &[u8],
    item: &[u8],
    count: u32,
    tail: &[u8],
) -> Result<Vec<u8>, AllocError> {
    let mut text = Vec::from_slice(alloc, head)?;
    for _ in 0..count {
        text.extend_from_slice(item)?;
    }
    text.extend_from_slice(tail)?;
    Ok(text)
}

/// Sixteen bytes in hex.
const SIXTEEN: &[u8] = b"5a5a5a5a5a5a5a5a5a5a5a5a5a5a5a5a";

/// Whether these are so many bytes of 0x5a.
fn are_those(bytes: &[u8], count: usize) -> bool {
    bytes.len() == count && bytes.iter().all(|b| *b == 0x5a)
}

/// How many bytes of 0x5a the message, the piece or the config of a line has, and the messages of its parts or of its
/// call together; none where it has another byte.
fn held(alloc: Global, kind: ScriptKind, text: &[u8]) -> Option<usize> {
    let mut reader = ScriptReader::new(alloc, kind);
    if kind != ScriptKind::Server {
        reader.line(b"channel 1 ipv4:1.2.3.4", true).ok()?;
    }
    match reader.line(text, true).ok()? {
        ScriptLine::Event { stamped } => held_by(&stamped.event),
        ScriptLine::Config { config } => counted(config.as_slice()),
        ScriptLine::Call { line, .. } => {
            let mut count = 0usize;
            for message in line.messages.as_slice() {
                count = count.wrapping_add(counted(message.as_slice())?);
            }
            Some(count)
        }
        ScriptLine::Answer { line } => {
            let mut count = 0usize;
            for part in line.parts.as_slice() {
                if let AnswerPart::Message(message) = part {
                    count = count.wrapping_add(counted(message.as_slice())?);
                }
            }
            Some(count)
        }
        ScriptLine::Channel { .. } => None,
    }
}

/// The same of an event.
fn held_by(event: &Event) -> Option<usize> {
    match event {
        Event::Send { message, .. } => counted(message.as_slice()),
        Event::Arrived { piece, .. } => counted(piece.as_slice()),
        Event::Resolved {
            config: Some(config),
            ..
        } => counted(config.as_slice()),
        _ => None,
    }
}

/// How many bytes these are, where each is 0x5a.
fn counted(bytes: &[u8]) -> Option<usize> {
    if !are_those(bytes, bytes.len()) {
        return None;
    }
    Some(bytes.len())
}

#[test]
fn the_greatest_values_are_read_whole(rt: HostRuntime) -> Result<(), Fail> {
    let alloc = rt.alloc();
    let rows: [(&str, ScriptKind, &[u8], u32, &[u8], usize); 5] = [
        (
            "a message of 4,194,304 bytes",
            ScriptKind::Replay,
            b"0 0 send 1 ",
            262_144,
            b"",
            4_194_304,
        ),
        (
            "a piece of 4,199,993 bytes, in a line of 8,400,000",
            ScriptKind::Replay,
            b"0 0 arrived 1 5a",
            262_499,
            b"5a5a5a5a5a5a5a5a",
            4_199_993,
        ),
        (
            "a config of 65,536 bytes in an event",
            ScriptKind::Replay,
            b"0 0 resolved - ",
            4_096,
            b"",
            65_536,
        ),
        (
            "a config of 65,536 bytes in a live script",
            ScriptKind::Live,
            b"config ",
            4_096,
            b"",
            65_536,
        ),
        (
            "a message of 4,194,304 bytes in a part",
            ScriptKind::Server,
            b"answer /a/b 1 m",
            262_144,
            b",s0",
            4_194_304,
        ),
    ];
    for (name, kind, head, count, tail, want) in rows {
        let line = repeated(alloc, head, SIXTEEN, count, tail)?;
        assert_eq!(rt; held(alloc, kind, line.as_slice()), Some(want), "{name}");
    }
    let message = repeated(alloc, b" ", SIXTEEN, 4_096, b"")?;
    let call = repeated(alloc, b"call 1 /a/b - - -", message.as_slice(), 64, b"")?;
    assert_eq!(rt;
        held(alloc, ScriptKind::Live, call.as_slice()),
        Some(4_194_304),
        "64 messages of 65,536 bytes"
    );
    Ok(())
}

#[test]
fn one_byte_more_is_past_the_limit(rt: HostRuntime) -> Result<(), Fail> {
    let alloc = rt.alloc();
    let rows: [(&str, ScriptKind, &[u8], &[u8], (u64, u8)); 4] = [
        (
            "a message",
            ScriptKind::Replay,
            b"0 0 send 1 ",
            b"00",
            (2, 11),
        ),
        (
            "half a byte",
            ScriptKind::Replay,
            b"0 0 send 1 ",
            b"0",
            (2, 7),
        ),
        (
            "a part",
            ScriptKind::Server,
            b"answer /a/b 1 m",
            b"00",
            (1, 11),
        ),
        (
            "a part before one in no form",
            ScriptKind::Server,
            b"answer /a/b 1 m",
            b"00,x",
            (1, 5),
        ),
    ];
    for (name, kind, head, tail, want) in rows {
        let line = repeated(alloc, head, SIXTEEN, 262_144, tail)?;
        assert_eq!(rt;
            reported_line(alloc, kind, line.as_slice(), true),
            want,
            "{name}"
        );
    }
    Ok(())
}

#[test]
fn lines_are_tested_before_their_fields(rt: HostRuntime) -> Result<(), Fail> {
    let alloc = rt.alloc();
    let replay = ScriptKind::Replay;
    let long = repeated(
        alloc,
        b"0 0 arrived 1 5a",
        SIXTEEN,
        262_499,
        b"0000000000000000",
    )?;
    assert_eq!(rt; long.len(), 8_400_000);
    let longer = repeated(alloc, long.as_slice(), b"\x01", 1, b"")?;
    let rows: [(&str, ScriptKind, &[u8], bool, (u64, u8)); 7] = [
        ("not ended", replay, long.as_slice(), false, (2, 3)),
        ("too long", replay, longer.as_slice(), false, (2, 2)),
        (
            "too long, live",
            ScriptKind::Live,
            longer.as_slice(),
            false,
            (2, 2),
        ),
        (
            "too long, server",
            ScriptKind::Server,
            longer.as_slice(),
            false,
            (1, 2),
        ),
        ("a tab", replay, b"0\t0", true, (2, 3)),
        ("a byte of 0x7f", replay, b"0 0 tick\x7f", true, (2, 3)),
        ("short and not ended", replay, b"0 0 tick", false, (2, 3)),
    ];
    for (name, kind, text, closed, want) in rows {
        assert_eq!(rt; reported_line(alloc, kind, text, closed), want, "{name}");
    }
    Ok(())
}

#[test]
fn a_script_has_1048578_lines(rt: HostRuntime) -> Result<(), Fail> {
    let alloc = rt.alloc();
    let longer = repeated(alloc, b"", b"\x01", 8_400_001, b"")?;
    let mut reader = ScriptReader::new(alloc, ScriptKind::Replay);
    assert_eq!(rt;
        reported(&mut reader, b"channel 1 ipv4:1.2.3.4", true),
        (0, 0)
    );
    for n in 2..1_048_578u64 {
        assert_eq!(rt;
            reported(&mut reader, b"0 0 tick", true),
            (0, 0),
            "line {n}"
        );
    }
    let rows: [(&str, &[u8], bool, (u64, u8)); 5] = [
        (
            "the last, too long",
            longer.as_slice(),
            false,
            (1_048_578, 2),
        ),
        ("the last, not ended", b"0 0 tick", false, (1_048_578, 3)),
        ("the last", b"0 0 tick", true, (0, 0)),
        ("one more", b"0 0 tick", true, (1_048_579, 12)),
        (
            "one more, too long",
            longer.as_slice(),
            false,
            (1_048_579, 12),
        ),
    ];
    for (name, text, closed, want) in rows {
        assert_eq!(rt; reported(&mut reader, text, closed), want, "{name}");
    }
    assert_eq!(rt; reader.lines(), 1_048_578);
    assert_eq!(rt; test_line(1_048_578, b"row 1", true), Ok(()));
    let many = LineFault::Bad { cause: 12 };
    assert_eq!(rt; test_line(1_048_579, b"row 1", true), Err(many));
    Ok(())
}
