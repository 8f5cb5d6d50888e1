// Header blocks, DATA and messages of many frames, made from counts.
use crate::link_run::{Cut, first_wrong};
use std::alloc::Global;
use std::test::Fail;

/// The most bytes of a frame's payload.
const PAYLOAD: usize = 16_384;

/// A text, so many times.
fn repeated(alloc: Global, text: &str, count: usize) -> Result<String, Fail> {
    let mut all = String::new(alloc);
    for _ in 0..count {
        all.push_str(text)?;
    }
    Ok(all)
}

/// A frame on stream 1 (RFC 9113, section 4.1), its payload in hex.
fn frame(alloc: Global, kind: u8, flags: u8, payload: &str) -> Result<String, Fail> {
    let len = payload.len() / 2;
    Ok(format!(in alloc; "{len:06x}{kind:02x}{flags:02x}00000001{payload}")?)
}

/// A frame of the longest payload, of one byte so many times.
fn full_frame(alloc: Global, kind: u8, byte: &str) -> Result<String, Fail> {
    frame(alloc, kind, 0, repeated(alloc, byte, PAYLOAD)?.as_str())
}

/// The row of a header block of 65,536 bytes, all but the last of them table size updates to 0 (RFC 7541, section 6.3), and
/// that of one of 65,537.
fn block_rows(alloc: Global) -> Result<String, Fail> {
    let first = full_frame(alloc, 1, "20")?;
    let more = full_frame(alloc, 9, "20")?;
    let updates = repeated(alloc, "20", PAYLOAD - 1)?;
    let last = frame(alloc, 9, 4, format!(in alloc; "{updates}88")?.as_str())?;
    let one = frame(alloc, 9, 4, "88")?;
    let whole = format!(in alloc;
        "block up>1 in>{first}{more}{more} kept> 49152 in>{last} fields 1 :status=200, more 65581 kept> 0\n"
    )?;
    let long = format!(in alloc;
        "longer-block up>1 in>{first}{more}{more}{more} kept> 65536 in>{one} broken 11 kept> 0\n"
    )?;
    Ok(format!(in alloc; "{whole}{long}")?)
}

/// The row of a header list of 390 fields of the size 7 + 3 + 32 (RFC 7541, section 4.1), 16,380 together, and that of one of 391.
fn list_rows(alloc: Global) -> Result<String, Fail> {
    let fields = repeated(alloc, "88", 390)?;
    let list = repeated(alloc, ":status=200,", 390)?;
    let whole = frame(alloc, 1, 5, fields.as_str())?;
    let long = frame(alloc, 1, 5, format!(in alloc; "{fields}88")?.as_str())?;
    Ok(format!(in alloc;
        "list up>1 in>{whole} fields 1 {list} end 408\nlonger-list up>1 in>{long} broken 11\n"
    )?)
}

#[test]
fn header_blocks_and_lists_are_bounded(rt: HostRuntime) -> Result<(), Fail> {
    let blocks = block_rows(rt.alloc())?;
    let lists = list_rows(rt.alloc())?;
    for size in [1_021, 65_536] {
        let cut = Cut::Every(size);
        assert_eq!(rt;
            first_wrong(rt.alloc(), false, blocks.as_str(), cut)?.as_str(),
            ""
        );
        assert_eq!(rt;
            first_wrong(rt.alloc(), false, lists.as_str(), cut)?.as_str(),
            ""
        );
    }
    Ok(())
}

/// The row of a message in so many frames of one byte and a last one of five bytes, between a head and trailers. The number in hex is the
/// message's length; the others are the bytes of the link up to its end, and up to the end of all. A link keeps less than a frame of it.
fn message_row(
    alloc: Global,
    frames: usize,
    length: &str,
    read: u64,
    all: u64,
) -> Result<String, Fail> {
    let head = "000014010400000001880f10106170706c69636174696f6e2f67727063";
    let trailers = "00000f010500000001000b677270632d7374617475730130";
    let prefix = repeated(alloc, "61", PAYLOAD - 5)?;
    let block = repeated(alloc, "62", PAYLOAD)?;
    let middle = repeated(alloc, block.as_str(), frames)?;
    let end = "6363636363";
    let first = frame(
        alloc,
        0,
        0,
        format!(in alloc; "00{length}{prefix}")?.as_str(),
    )?;
    let more = frame(alloc, 0, 0, block.as_str())?;
    let last = frame(alloc, 0, 0, end)?;
    let mut bytes = format!(in alloc; "{head}{first}")?;
    for _ in 0..frames {
        bytes.push_str(more.as_str())?;
    }
    Ok(format!(in alloc;
        "message up>1 in>{bytes}{last}{trailers} head 1 - 38 message 1 {prefix}{middle}{end} {read} ended 1 0 - - - seen {all} status within>16392 kept> 0"
    )?)
}

#[test]
fn a_long_message_is_reported_whole(rt: HostRuntime) -> Result<(), Fail> {
    // (12 * 16,384 bytes, and 38, 5 and 13 * 9 more; the trailers are 24)
    let row = message_row(rt.alloc(), 11, "00030000", 196_768, 196_792)?;
    for size in [1_021, 65_536] {
        let wrong = first_wrong(rt.alloc(), true, row.as_str(), Cut::Every(size))?;
        assert!(rt; wrong.is_empty(), "in pieces of {size}");
    }
    Ok(())
}

#[test]
fn the_longest_message_is_not_kept(rt: HostRuntime) -> Result<(), Fail> {
    let row = message_row(rt.alloc(), 255, "00400000", 4_196_660, 4_196_684)?;
    let wrong = first_wrong(rt.alloc(), true, row.as_str(), Cut::Every(1_021))?;
    assert!(rt; wrong.is_empty());
    Ok(())
}

/// The row of 70,000 bytes to send: three full frames and one that fills the windows of 65,535, and the rest once the peer
/// has raised both.
fn request_row(alloc: Global) -> Result<String, Fail> {
    let last = repeated(alloc, "64", 16_383)?;
    let rest = repeated(alloc, "65", 4_465)?;
    let mut bytes = String::new(alloc);
    let mut frames = String::new(alloc);
    for byte in ["61", "62", "63"] {
        bytes.push_str(repeated(alloc, byte, PAYLOAD)?.as_str())?;
        frames.push_str(full_frame(alloc, 0, byte)?.as_str())?;
    }
    let filling = frame(alloc, 0, 0, last.as_str())?;
    let ending = frame(alloc, 0, 1, rest.as_str())?;
    Ok(format!(in alloc;
        "request up>1 last>1:{bytes}{last}{rest} out> {frames}{filling} in>00000408000000000000002710 out> - in>00000408000000000100001388 out> {ending} out> -"
    )?)
}

#[test]
fn a_long_request_is_sent_within_both_windows(rt: HostRuntime) -> Result<(), Fail> {
    let row = request_row(rt.alloc())?;
    let wrong = first_wrong(rt.alloc(), false, row.as_str(), Cut::At(0))?;
    assert!(rt; wrong.is_empty());
    Ok(())
}
