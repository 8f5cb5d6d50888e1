// Messages and their frames.
use grpc_base::Octets;
use grpc_frame::{FrameFault, MessageFault, MessageReader, frame_message};
use std::alloc::Global;
use table_rows::{Said, Wrong, bytes_of, bytes_of_hex};

/// Feeds a piece, appends what its messages say, and gives the fault.
fn fed(
    reader: &mut MessageReader,
    piece: &Octets,
    out: &mut Said,
) -> Result<Option<MessageFault>, Wrong> {
    let fed = reader.feed(piece)?;
    for message in &fed.messages {
        out.text(message.as_slice());
    }
    Ok(fed.fault)
}

fn append_fault(out: &mut Said, fault: Option<MessageFault>) {
    match fault {
        None => out.text(b" - "),
        Some(MessageFault::BadFlag) => out.text(b" flag "),
        Some(MessageFault::TooLarge { length }) => {
            out.text(b" large ");
            out.number(u64::from(length));
            out.text(b" ");
        }
    }
}

/// Appends what a text of messages of at most three bytes says that is cut at this place, and that its fault stays.
fn append_cut(alloc: Global, text: &Octets, cut: usize, out: &mut Said) -> Result<(), Wrong> {
    let mut reader = MessageReader::new(alloc, 3);
    let cut = cut.min(text.len());
    fed(&mut reader, &text.part(0, cut)?, out)?;
    let fault = fed(&mut reader, &text.part(cut, text.len())?, out)?;
    append_fault(out, fault);
    out.text(if reader.whole() { b"true" } else { b"false" });
    if fed(&mut reader, &Octets::new(), out)? != fault {
        out.text(b" and another fault then");
    }
    Ok(())
}

/// What a text of messages says that is cut in two at each place, with a line feed after each.
pub fn messages(alloc: Global, input: &str, out: &mut Said) -> Result<(), Wrong> {
    let text = Octets::of_vec(bytes_of_hex(alloc, input)?)?;
    for cut in 0..text.len() + 1 {
        append_cut(alloc, &text, cut, out)?;
        out.text(b"\n");
    }
    Ok(())
}

/// A message with its flag and its length.
pub fn framed(alloc: Global, input: &str, out: &mut Said) -> Result<(), Wrong> {
    match frame_message(alloc, bytes_of(alloc, input)?.as_slice()) {
        Ok(text) => out.text(text.as_slice()),
        Err(FrameFault::TooLarge) => out.text(b"too large"),
        Err(FrameFault::NoMemory) => return Err(Wrong::NoMemory),
    }
    Ok(())
}
