// Header blocks, and the header lists that they say (RFC 9113, section 4.3; RFC 7541).
ghost use Rattle.std.specs.Prelude.{◌≡◌, ◌≢◌, ◌&&◌, Err, IfErr, IfOk, Ok, OnOk, Some, filter_map, fold, unwrap_or};
ghost use Rattle.h2_frame.specs.Frames.{fields_size, is_padded};
ghost use Rattle.h2_frame.specs.Payloads.{content_of, padding_of};
ghost use Rattle.h2_hpack.specs.Blocks.{decoded, state_after, table_in};
ghost use Rattle.session_actions.specs.Links.{read_in};
ghost use Rattle.session_actions.specs.Reading.{block_after, block_with, blocks_from, is_last_of_block, is_long_block, is_of_block, next_fields, no_block, open_block};

use crate::links::{first_read, has_flag};
use grpc_base::{Fields, NoMemory, Text};
use h2_frame::{flags, kinds};
use h2_hpack::{Decoder, HpackFault};
use session_actions::{Link, OpenBlock, Traffic, WireFrame};
use std::alloc::Global;

/// Whether a frame is part of a header block.
pub(crate) fn is_of_block(frame: &WireFrame) -> bool
    ensures { result ≡ is_of_block frame.now }
{
    frame.kind == kinds::HEADERS || frame.kind == kinds::CONTINUATION
}

/// Whether it is the last part.
pub(crate) fn is_last_of_block(frame: &WireFrame) -> bool
    ensures { result ≡ is_last_of_block frame.now }
{
    has_flag(frame.flags, flags::END_HEADERS)
}

/// Whether a frame completes a header block.
fn completes_block(frame: &WireFrame) -> bool
    ensures { result ≡ is_of_block frame.now && is_last_of_block frame.now }
{
    is_of_block(frame) && is_last_of_block(frame)
}

/// The header block with the part that a frame is.
pub(crate) fn block_with(
    alloc: Global,
    begun: Option<OpenBlock>,
    frame: &WireFrame,
) -> Result<OpenBlock, NoMemory>
    ensures { IfOk result (λ b. b ≡ block_with begun frame.now) }
{
    if frame.kind == kinds::HEADERS {
        return Ok(OpenBlock {
            stream: frame.stream,
            ends: has_flag(frame.flags, flags::END_STREAM),
            bytes: Text::of_slice(alloc, content_of(frame))?,
        });
    }
    let mut block = block_or_none(alloc, begun);
    block.bytes.append(frame.payload.as_slice())?;
    Ok(block)
}

/// The block that is begun, or an empty one.
fn block_or_none(alloc: Global, begun: Option<OpenBlock>) -> OpenBlock
    ensures { result ≡ unwrap_or begun no_block }
{
    match begun {
        Some(block) => block,
        None => OpenBlock {
            stream: 0,
            ends: false,
            bytes: Text::new(alloc),
        },
    }
}

/// The block that is begun and not whole after a frame.
fn block_after(
    alloc: Global,
    begun: Option<OpenBlock>,
    frame: &WireFrame,
) -> Result<Option<OpenBlock>, NoMemory>
    ensures { IfOk result (λ b. b ≡ block_after begun frame.now) }
{
    if !is_of_block(frame) {
        return Ok(begun);
    }
    if is_last_of_block(frame) {
        return Ok(None);
    }
    Ok(Some(block_with(alloc, begun, frame)?))
}

/// The block of a link that is begun and not whole.
pub(crate) fn open_block(alloc: Global, link: &Link) -> Result<Option<OpenBlock>, NoMemory>
    ensures { IfOk result (λ b. b ≡ open_block link.now) }
{
    open_block_after(alloc, None, link.traffic.as_slice())
}

fn open_block_after(
    alloc: Global,
    begun: Option<OpenBlock>,
    traffic: &[Traffic],
) -> Result<Option<OpenBlock>, NoMemory>
    ensures { IfOk result (λ b. b ≡ fold (λ open_ r. block_after open_ r.frame) begun (filter_map read_in traffic.now)) }
{
    match first_read(traffic) {
        Some((read, rest)) => {
            let next = block_after(alloc, begun, &read.frame)?;
            open_block_after(alloc, next, rest)
        }
        None => Ok(begun),
    }
}

/// The header list of one more block of a link, or its fault.
pub(crate) fn next_fields(alloc: Global, link: &Link, bytes: &[u8]) -> Result<Fields, HpackFault>
    ensures list { IfOk result (λ fields. next_fields link.now bytes.now ≡ Ok fields) }
    ensures fault { IfErr result (λ e. e ≢ HpackFault.NoMemory → next_fields link.now bytes.now ≡ Err e) }
{
    let mut decoder = Decoder::new(alloc);
    decode_all(alloc, &mut decoder, None, link.traffic.as_slice())?;
    decoder.block(bytes)
}

/// Decodes the whole blocks that were read.
fn decode_all(
    alloc: Global,
    decoder: &mut Decoder,
    begun: Option<OpenBlock>,
    traffic: &[Traffic],
) -> Result<(), NoMemory>
    ensures { OnOk result (decoder.new ≡ state_after decoder.old (blocks_from begun (filter_map read_in traffic.now))) }
{
    let Some((read, rest)) = first_read(traffic) else {
        return Ok(());
    };
    if completes_block(&read.frame) {
        let block = block_with(alloc, begun, &read.frame)?;
        decode(decoder, block.bytes.as_slice())?;
        return decode_all(alloc, decoder, None, rest);
    }
    let next = block_after(alloc, begun, &read.frame)?;
    decode_all(alloc, decoder, next, rest)
}

/// Decodes one block; a fault stays with the decoder.
fn decode(decoder: &mut Decoder, bytes: &[u8]) -> Result<(), NoMemory>
    ensures { OnOk result (decoder.new ≡ table_in (decoded decoder.old bytes.now)) }
{
    match decoder.block(bytes) {
        Ok(_) => Ok(()),
        Err(fault) => match fault {
            HpackFault::NoMemory => Err(NoMemory),
            _ => Ok(()),
        },
    }
}

/// Whether a block is longer than the channel reads.
pub(crate) fn is_long_block(block: &OpenBlock) -> bool
    ensures { result ≡ is_long_block block.now }
{
    65_536 < block.bytes.len()
}

/// How many bytes the Pad Length and priority fields take.
fn fields_size(kind: u8, flags: u8) -> usize
    ensures { result ≡ fields_size kind flags }
{
    let pad_length = if is_padded(kind, flags) { 1 } else { 0 };
    let priority = if kind == kinds::HEADERS && has_flag(flags, flags::PRIORITY) {
        5
    } else {
        0
    };
    pad_length + priority
}

/// Whether the payload begins with a Pad Length field.
fn is_padded(kind: u8, flags: u8) -> bool
    ensures { result ≡ is_padded kind flags }
{
    matches!(kind, kinds::DATA | kinds::HEADERS) && has_flag(flags, flags::PADDED)
}

/// How many bytes of padding the payload ends with.
fn padding_of(frame: &WireFrame) -> usize
    ensures { result ≡ padding_of frame.now }
{
    if is_padded(frame.kind, frame.flags) {
        frame.payload.as_slice().first().copied().unwrap_or(0) as usize
    } else {
        0
    }
}

/// The payload without its Pad Length, its priority fields and its padding (RFC 9113, sections 6.1 and 6.2).
pub(crate) fn content_of(frame: &WireFrame) -> &[u8]
    ensures { result.now ≡ content_of frame.now }
{
    let payload = frame.payload.as_slice();
    let fields = fields_size(frame.kind, frame.flags).min(payload.len());
    let afterwards = &payload[fields..];
    let count = afterwards.len().saturating_sub(padding_of(frame));
    &afterwards[..count]
}
