// Buffers through worked steps.
use attempt_buffer::{Buffer, PushFault, Pushed};
use bytes::BytesMut;
use grpc_base::Octets;
use std::alloc::Global;
use std::process::Abort;
use std::test::Fail;

/// A framed message of so many bytes.
fn framed(alloc: Global, len: usize) -> Result<Octets, Fail> {
    let mut bytes = Vec::new(alloc);
    bytes.resize(len, 7)?;
    Ok(Octets::of_vec(bytes)?)
}

/// A step: pushes so many bytes, for the row that is committed where they overflow, with the answer. Or it opens a row, takes so many
/// bytes of it, commits to it or closes it; or compares what is kept, or what a row has still to send.
#[derive(Clone, Copy)]
enum Step {
    Push(usize, Option<u64>, Result<Pushed, PushFault>),
    Open(u64),
    Take(u64, u32),
    Commit(u64),
    Close(u64),
    Kept(u64),
    Ready(u64, u64),
}

fn make_step(
    rt: &impl Abort,
    alloc: Global,
    buffer: &mut Buffer,
    step: Step,
    place: usize,
) -> Result<(), Fail> {
    match step {
        Step::Push(len, outstanding, want) => {
            let message = framed(alloc, len)?;
            assert!(rt; message.len() <= 4_194_309);
            if let Some(row) = outstanding {
                assert!(rt; buffer.is_open(row));
            }
            let answer = buffer.push(message, outstanding);
            assert!(rt; answer == want, "push at {place}");
        }
        Step::Open(row) => {
            assert!(rt; buffer.can_open(row));
            buffer.open(row)?;
        }
        Step::Take(row, len) => {
            let mut out = BytesMut::new(alloc);
            assert!(rt; buffer.is_open(row) && u64::from(len) <= buffer.ready(row));
            buffer.take(row, len, &mut out)?;
            assert_eq!(rt; out.len(), len as usize, "take at {place}");
        }
        Step::Commit(row) => {
            assert!(rt; buffer.is_open(row));
            buffer.commit(row);
        }
        Step::Close(row) => buffer.close(row),
        Step::Kept(want) => assert_eq!(rt; buffer.kept(), want, "kept at {place}"),
        Step::Ready(row, want) => assert_eq!(rt; buffer.ready(row), want, "ready at {place}"),
    }
    Ok(())
}

#[test]
fn worked_steps(rt: HostRuntime) -> Result<(), Fail> {
    let kept = Ok(Pushed::Kept);
    let rows = [
        // an uncommitted call without an attempt holds 262,144 bytes, and not one more
        Step::Push(262_144, None, kept),
        Step::Push(5, None, Err(PushFault::Full { held: 262_144 })),
        Step::Kept(262_144),
        // with an attempt outstanding it is committed to it, and nothing was sent whole
        Step::Open(1),
        Step::Open(2),
        Step::Take(2, 100_000),
        Step::Push(5, Some(2), Ok(Pushed::Overflow)),
        Step::Kept(262_149),
        Step::Ready(1, 0),
        Step::Ready(2, 162_149),
        Step::Push(5, None, Err(PushFault::Full { held: 162_149 })),
        // what is sent makes room, at 65,536 bytes there is none
        Step::Take(2, 96_613),
        Step::Push(5, None, Err(PushFault::Full { held: 65_536 })),
        Step::Take(2, 1),
        Step::Push(65_535, None, kept),
        Step::Push(5, None, Err(PushFault::Full { held: 131_070 })),
        // a message that was sent whole is given up
        Step::Take(2, 65_530),
        Step::Kept(65_540),
        Step::Take(2, 5),
        Step::Kept(65_535),
        // a committed row that closes leaves what it hadn't sent
        Step::Close(2),
        Step::Ready(2, 0),
        Step::Push(5, None, kept),
        Step::Push(5, None, Err(PushFault::Full { held: 65_540 })),
        Step::Kept(65_540),
    ];
    let mut buffer = Buffer::new(rt.alloc());
    for (place, row) in rows.iter().enumerate() {
        make_step(&rt, rt.alloc(), &mut buffer, *row, place)?;
    }
    Ok(())
}

#[test]
fn three_messages_of_which_two_were_sent(rt: HostRuntime) -> Result<(), Fail> {
    let kept = Ok(Pushed::Kept);
    let rows = [
        Step::Open(1),
        Step::Push(105, None, kept),
        Step::Push(105, None, kept),
        Step::Push(105, None, kept),
        Step::Take(1, 210),
        Step::Kept(315),
        Step::Commit(1),
        Step::Kept(105),
        Step::Ready(1, 105),
        // a committed call takes messages until it holds 65,536 bytes
        Step::Take(1, 105),
        Step::Push(65_535, None, kept),
        Step::Push(5, None, kept),
        Step::Push(5, None, Err(PushFault::Full { held: 65_540 })),
        Step::Ready(1, 65_540),
    ];
    let mut buffer = Buffer::new(rt.alloc());
    for (place, row) in rows.iter().enumerate() {
        make_step(&rt, rt.alloc(), &mut buffer, *row, place)?;
    }
    Ok(())
}

#[test]
fn a_later_attempt_sends_all_messages(rt: HostRuntime) -> Result<(), Fail> {
    let mut buffer = Buffer::new(rt.alloc());
    let mut first = BytesMut::new(rt.alloc());
    let mut second = BytesMut::new(rt.alloc());
    assert!(rt; buffer.can_open(1));
    buffer.open(1)?;
    buffer.push(Octets::of_slice(rt.alloc(), b"one, ")?, None)?;
    assert!(rt; buffer.is_open(1) && buffer.ready(1) >= 4);
    buffer.take(1, 4, &mut first)?;
    assert!(rt; buffer.can_open(2));
    buffer.open(2)?;
    buffer.push(Octets::of_slice(rt.alloc(), b"two, ")?, None)?;
    assert!(rt; buffer.is_open(1) && buffer.ready(1) >= 6);
    buffer.take(1, 6, &mut first)?;
    assert!(rt; buffer.is_open(2) && buffer.ready(2) >= 7);
    buffer.take(2, 7, &mut second)?;
    assert!(rt; first.as_slice() == b"one, two, ".as_slice());
    assert!(rt; second.as_slice() == b"one, tw".as_slice());
    assert_eq!(rt; buffer.kept(), 10);
    Ok(())
}
