// Scripts from memory: read in pieces of any size, their first bad lines, and reads that fail.
use gate_io::MemSource;
use resolver_core::Target;
use script_input::{InputFault, read_replay, read_report};
use std::alloc::Global;
use std::process::Abort;
use std::test::Fail;

/// A script of three events.
const SCRIPT: &[u8] =
    b"channel 1 ipv4:127.0.0.1:50051,127.0.0.2\n0 0 resolved 127.0.0.1:50051 -\n0 0 dial\n7 9 tick\n";

/// A channel line.
const CHANNEL: &[u8] = b"channel 1 ipv4:127.0.0.1:50051\n";

/// What a script of a channel line, if there is one, and this text is answered, where the read of one number fails.
fn fault(
    alloc: Global,
    channel: &[u8],
    text: &[u8],
    piece: usize,
    failing: u64,
) -> Result<Option<InputFault>, Fail> {
    let mut bytes = channel.to_vec(alloc)?;
    bytes.extend_from_slice(text)?;
    let piece = piece.max(1);
    let mut source = MemSource::new(bytes, piece, vec![in alloc; failing]?);
    match read_replay(alloc, &mut source) {
        Ok(_) => Ok(None),
        Err(fault) => Ok(Some(fault)),
    }
}

/// Whether a target names so many addresses.
fn is_of(target: &Target, count: usize) -> bool {
    match target {
        Target::Ipv4(addresses) => addresses.as_slice().len() == count,
        Target::Dns(_) => false,
    }
}

/// A script read in pieces of at most so many bytes.
fn expect_script(rt: &impl Abort, alloc: Global, piece: usize) -> Result<(), Fail> {
    let piece = piece.max(1);
    let mut source = MemSource::new(SCRIPT.to_vec(alloc)?, piece, Vec::new(alloc));
    match read_replay(alloc, &mut source) {
        Ok(script) => {
            assert_eq!(rt;
                script.target.as_slice(),
                b"ipv4:127.0.0.1:50051,127.0.0.2".as_slice()
            );
            assert!(rt; is_of(&script.value, 2));
            assert_eq!(rt; script.events.len(), 3);
        }
        Err(_) => assert!(rt; false),
    }
    Ok(())
}

#[test]
fn pieces_are_cut_anywhere(rt: HostRuntime) -> Result<(), Fail> {
    expect_script(&rt, rt.alloc(), 1)?;
    expect_script(&rt, rt.alloc(), 7)?;
    expect_script(&rt, rt.alloc(), 41)?;
    expect_script(&rt, rt.alloc(), 65_536)
}

#[test]
fn the_first_bad_line_is_reported(rt: HostRuntime) -> Result<(), Fail> {
    let alloc = rt.alloc();
    let long = vec![in alloc; 97u8; 8_400_001]?;
    let rows: [(&str, &[u8], &[u8], usize, (u64, u8)); 7] = [
        (
            "a version that is neither 1 nor 2",
            b"",
            b"channel 3 ipv4:127.0.0.1:50051\n",
            5,
            (1, 1),
        ),
        (
            "a channel line that is not ended",
            b"",
            b"channel 1 ipv4:127.0.0.1:50051",
            5,
            (1, 3),
        ),
        ("no channel line", b"", b"\n", 5, (1, 1)),
        (
            "the first of two",
            CHANNEL,
            b"0 0 dance\n0 x dial\n",
            5,
            (2, 5),
        ),
        (
            "a line that is not ended",
            CHANNEL,
            b"0 0 dial\n0 0 dial",
            5,
            (3, 3),
        ),
        ("a carriage return", CHANNEL, b"0 0 dial\r\n", 5, (2, 3)),
        (
            "a line that is too long, before its end",
            CHANNEL,
            long.as_slice(),
            65_536,
            (2, 2),
        ),
    ];
    for (name, channel, text, piece, (line, cause)) in rows {
        assert_eq!(rt;
            fault(alloc, channel, text, piece, 0)?,
            Some(InputFault::BadLine { line, cause }),
            "{name}"
        );
    }
    Ok(())
}

#[test]
fn what_comes_first_is_reported(rt: HostRuntime) -> Result<(), Fail> {
    let alloc = rt.alloc();
    let bad = InputFault::BadLine { line: 2, cause: 5 };
    let rows: [(&str, &[u8], &[u8], usize, u64, InputFault); 4] = [
        ("no bytes", b"", b"", 1, 0, InputFault::Empty),
        (
            "a first read that fails",
            b"",
            b"",
            1,
            1,
            InputFault::ReadFailed,
        ),
        (
            "a fifth read that fails",
            CHANNEL,
            b"0 0 dial\n",
            9,
            5,
            InputFault::ReadFailed,
        ),
        (
            "a bad line before a read that fails",
            CHANNEL,
            b"0 0 dance\n",
            41,
            2,
            bad,
        ),
    ];
    for (name, channel, text, piece, failing, want) in rows {
        assert_eq!(rt;
            fault(alloc, channel, text, piece, failing)?,
            Some(want),
            "{name}"
        );
    }
    Ok(())
}

/// How many events a report of version 1 with this text after its channel line has, or its first bad line and the cause.
fn report_of(alloc: Global, text: &[u8]) -> Result<Result<usize, (u64, u8)>, Fail> {
    let mut bytes = CHANNEL.to_vec(alloc)?;
    bytes.extend_from_slice(text)?;
    let mut source = MemSource::new(bytes, 5, Vec::new(alloc));
    match read_report(alloc, &mut source) {
        Ok(script) => Ok(Ok(script.events.len())),
        Err(InputFault::BadLine { line, cause }) => Ok(Err((line, cause))),
        Err(_) => Err("a report".into()),
    }
}

#[test]
fn a_report_is_read_up_to_its_rows(rt: HostRuntime) -> Result<(), Fail> {
    let rows: [(&str, &[u8], Result<usize, (u64, u8)>); 13] = [
        ("no events", b"", Ok(0)),
        ("a script", b"0 0 dial\n0 0 tick\n", Ok(2)),
        (
            "a report",
            b"0 0 dial = notyet\n0 0 tick = done\nrow 1\nend 2 0 0 0\n",
            Ok(2),
        ),
        ("the first sign", b"0 0 dial = x = y\n", Ok(1)),
        ("a sign cut short", b"0 0 dial =\n", Err((2, 6))),
        ("nothing before the sign", b" = done\n", Err((2, 6))),
        (
            "an event behind a row",
            b"0 0 dial = notyet\nrow 1\n0 0 tick = done\n",
            Err((4, 5)),
        ),
        ("a row and no space", b"0 0 dial\nrow\n", Err((3, 6))),
        (
            "a fault and a row",
            b"fault line 2 cause 13\nrow x\nend\n",
            Err((4, 5)),
        ),
        ("an end alone", b"end \n", Ok(0)),
        ("a bad byte of a row", b"row 1\x7f\n", Err((2, 3))),
        ("an end that is not ended", b"0 0 dial\nend 1", Err((3, 3))),
        ("a bad part", b"0 0 arrived 1 0G = done\n", Err((2, 7))),
    ];
    for (name, text, want) in rows {
        assert_eq!(rt; report_of(rt.alloc(), text)?, want, "{name}");
    }
    Ok(())
}
