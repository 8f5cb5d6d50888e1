// Frames as they are read.
use h2_frame::{FrameStep, fault_place, kinds, next_frame, next_setting};
use std::alloc::Global;
use table_rows::{Said, Wrong, bytes_of_hex};

/// What the first bytes of a text are: less than a frame, a frame of so many bytes, whose payload stands after its header or not, or a
/// fault that the byte at a place shows.
#[derive(Clone, Copy, PartialEq, Eq)]
enum Seen {
    More,
    Frame {
        kind: u8,
        flags: u8,
        stream: u32,
        size: usize,
        is_whole: bool,
    },
    Fault {
        code: u32,
        place: usize,
    },
}

fn seen_in(bytes: &[u8]) -> Seen {
    match next_frame(bytes) {
        FrameStep::More => Seen::More,
        FrameStep::Got { frame, len } => Seen::Frame {
            kind: frame.kind,
            flags: frame.flags,
            stream: frame.stream,
            size: len,
            is_whole: bytes.get(9..len) == Some(frame.payload),
        },
        FrameStep::Bad { code } => Seen::Fault {
            code,
            place: fault_place(bytes),
        },
    }
}

/// Appends a space and a number.
fn append_word(out: &mut Said, number: u64) {
    out.text(b" ");
    out.number(number);
}

/// Appends from which count of bytes on a text is seen as this.
fn append_seen(out: &mut Said, count: usize, seen: Seen) {
    out.text(b" at");
    append_word(out, count as u64);
    match seen {
        Seen::More => out.text(b" more"),
        Seen::Frame {
            kind,
            flags,
            stream,
            size,
            is_whole,
        } => {
            out.text(b" frame");
            append_word(out, u64::from(kind));
            append_word(out, u64::from(flags));
            append_word(out, u64::from(stream));
            if size != count || !is_whole {
                out.text(b" of another size");
            }
        }
        Seen::Fault { code, place } => {
            out.text(b" fault");
            append_word(out, u64::from(code));
            if place != count {
                out.text(b" at another place");
            }
        }
    }
}

/// What each beginning of some bytes is.
pub fn frame(alloc: Global, input: &str, out: &mut Said) -> Result<(), Wrong> {
    let bytes = bytes_of_hex(alloc, input)?;
    let bytes = bytes.as_slice();
    out.text(b"more");
    let mut before = Seen::More;
    for count in 0..bytes.len() + 1 {
        let seen = seen_in(&bytes[..count]);
        if seen != before {
            append_seen(out, count, seen);
            before = seen;
        }
    }
    Ok(())
}

/// What the payload of a whole frame says.
pub fn payload(alloc: Global, input: &str, out: &mut Said) -> Result<(), Wrong> {
    let bytes = bytes_of_hex(alloc, input)?;
    let FrameStep::Got { frame, len: _ } = next_frame(bytes.as_slice()) else {
        return Err(Wrong::Form);
    };
    if frame.kind == kinds::RST_STREAM {
        out.text(b"reset");
        append_word(out, u64::from(frame.reset_code()));
    } else if frame.kind == kinds::PING {
        out.text(b"word");
        append_word(out, frame.ping_word());
    } else if frame.kind == kinds::GOAWAY {
        out.text(b"goaway");
        append_word(out, u64::from(frame.last_stream()));
        append_word(out, u64::from(frame.goaway_code()));
    } else if frame.kind == kinds::WINDOW_UPDATE {
        out.text(b"increment");
        append_word(out, u64::from(frame.increment()));
    } else {
        out.text(b"content ");
        out.hex(alloc, frame.content());
    }
    Ok(())
}

/// The settings of a payload, one by one.
pub fn settings(alloc: Global, input: &str, out: &mut Said) -> Result<(), Wrong> {
    let bytes = bytes_of_hex(alloc, input)?;
    let mut rest = bytes.as_slice();
    for _ in 0..bytes.len() {
        let Some((setting, more)) = next_setting(rest) else {
            break;
        };
        if !out.is_empty() {
            out.text(b" ");
        }
        out.number(u64::from(setting.identifier));
        out.text(b"=");
        out.number(u64::from(setting.value));
        rest = more;
    }
    Ok(())
}
