// What the bytes of a link show after those that were read (RFC 9113, sections 4.1, 4.3 and 5.4.1).
ghost use Rattle.std.specs.Prelude.{◌≡◌, ◌≢◌, IfOk, None, Ok, drop};
ghost use Rattle.h2_frame.specs.Steps.{seen};
ghost use Rattle.session_actions.specs.Reading.{block_read, frame_read_by, hpack_error, next_read, part_read, plain_read};
ghost use Rattle.session_actions.specs.Links.{read_bytes};
ghost use Rattle.session_actions.specs.declared.link.NextRead.TheVariants as nextread;

use crate::blocks::{
    block_with, is_last_of_block, is_long_block, is_of_block, next_fields, open_block,
};
use crate::link_rules::link_error;
use crate::links::read_bytes;
use crate::windows::sum;
use grpc_base::error_code::{COMPRESSION_ERROR, ENHANCE_YOUR_CALM};
use grpc_base::{Fields, NoMemory, Octets};
use h2_frame::{Frame, FrameStep, next_frame};
use h2_hpack::HpackFault;
use session_actions::{Block, Link, NextRead, OpenBlock, ReadFrame, Seen, WireFrame};
use std::alloc::Global;

/// The next frame of a link, nothing, or the error that its bytes show.
pub fn next_read(alloc: Global, link: &Link, seen: &Seen) -> Result<NextRead, NoMemory>
    ensures { IfOk result (λ n. n ≡ next_read link.now seen.now) }
{
    match next_frame(unread(link)) {
        FrameStep::Got { frame, len } => {
            let end = sum(read_bytes(link), len as u64)?;
            let frame = whole_frame(alloc, &frame)?;
            match link_error(alloc, link, &frame, seen)? {
                Some(code) => Ok(NextRead::Broken { code }),
                None => frame_read(alloc, link, frame, end),
            }
        }
        FrameStep::More => Ok(NextRead::Nothing),
        FrameStep::Bad { code } => Ok(NextRead::Broken { code }),
    }
}

/// The bytes after those that were read.
fn unread(link: &Link) -> &[u8]
    ensures { result.now ≡ drop (read_bytes link.now) link.now.received }
{
    let bytes = link.received.as_slice();
    let read = read_bytes(link).min(bytes.len() as u64);
    &bytes[read as usize..]
}

/// A copy of a frame.
fn whole_frame(alloc: Global, frame: &Frame<'_>) -> Result<WireFrame, NoMemory>
    ensures { IfOk result (λ f. f ≡ seen frame.now) }
{
    Ok(WireFrame {
        kind: frame.kind,
        flags: frame.flags,
        stream: frame.stream,
        payload: Octets::of_slice(alloc, frame.payload)?,
    })
}

/// A frame that breaks no rule, with the header block that it completes.
fn frame_read(alloc: Global, link: &Link, frame: WireFrame, end: u64) -> Result<NextRead, NoMemory>
    ensures { IfOk result (λ n. n ≡ frame_read_by None link.now frame end) }
{
    if !is_of_block(&frame) {
        return Ok(plain_read(frame, end));
    }
    let block = block_with(alloc, open_block(alloc, link)?, &frame)?;
    part_read(alloc, link, frame, end, &block)
}

fn plain_read(frame: WireFrame, end: u64) -> NextRead
    ensures { result ≡ plain_read frame end }
{
    NextRead::Frame {
        read: ReadFrame {
            frame,
            end,
            block: None,
        },
    }
}

/// A part of a header block.
fn part_read(
    alloc: Global,
    link: &Link,
    frame: WireFrame,
    end: u64,
    block: &OpenBlock,
) -> Result<NextRead, NoMemory>
    ensures { IfOk result (λ n. n ≡ part_read link.now frame end block.now) }
{
    if is_last_of_block(&frame) {
        return match next_fields(alloc, link, block.bytes.as_slice()) {
            Ok(fields) => Ok(block_read(frame, end, block, fields)),
            Err(fault) => broken_block(fault),
        };
    }
    if is_long_block(block) {
        return Ok(NextRead::Broken {
            code: ENHANCE_YOUR_CALM,
        });
    }
    Ok(plain_read(frame, end))
}

/// A whole header block that can be decoded.
fn block_read(frame: WireFrame, end: u64, block: &OpenBlock, fields: Fields) -> NextRead
    ensures { result ≡ block_read frame end block.now (Ok fields) }
{
    if is_long_block(block) {
        return NextRead::Broken {
            code: ENHANCE_YOUR_CALM,
        };
    }
    let block = Block {
        fields,
        ends: block.ends,
    };
    NextRead::Frame {
        read: ReadFrame {
            frame,
            end,
            block: Some(block),
        },
    }
}

/// A whole header block with a fault.
fn broken_block(fault: HpackFault) -> Result<NextRead, NoMemory>
    ensures broken { IfOk result (λ n. n ≡ nextread.Broken (hpack_error fault)) }
    ensures known { IfOk result (λ _. fault ≢ HpackFault.NoMemory) }
{
    match fault {
        HpackFault::NoMemory => Err(NoMemory),
        HpackFault::TooLong => Ok(NextRead::Broken {
            code: ENHANCE_YOUR_CALM,
        }),
        _ => Ok(NextRead::Broken {
            code: COMPRESSION_ERROR,
        }),
    }
}
