// The rows of a link's job, over a link in memory.
use crate::connection::Connected;
use crate::turns::say_came;
use gate_io::{MemLinkIn, MemLinkOut, MemSink, MemSource};
use relay_front::relay_link;
use std::alloc::Global;
use std::sync::Wait;
use table_rows::{Said, Wrong, bytes_of_hex, number, part};

/// The most bytes that a link takes in one write.
const WRITTEN: usize = 16_384;

/// The call of a device that fails, if one does; 0 stands for none.
fn failing(alloc: Global, text: &str) -> Result<Vec<u64>, Wrong> {
    let mut failing = Vec::new(alloc);
    let call = number(text)?;
    if call != 0 {
        failing.extend_from_slice(&[call])?;
    }
    Ok(failing)
}

/// The bytes of a row as what comes on a link, which ends after them: `MOST READ WRITE BYTES` says how many bytes a read gives, and which read
/// and which write fail.
fn link_of(alloc: Global, input: &str) -> Result<(MemLinkIn, MemLinkOut), Wrong> {
    let most = number(part(input, 0))? as usize;
    if most == 0 {
        return Err(Wrong::Form);
    }
    let bytes = bytes_of_hex(alloc, part(input, 3))?;
    let source = MemSource::new(bytes, most, failing(alloc, part(input, 1))?);
    let sink = MemSink::new(alloc, WRITTEN, failing(alloc, part(input, 2))?);
    Ok((MemLinkIn::new(source, true), MemLinkOut::new(sink)))
}

/// The job of a link over these bytes: what it answers and posts, what it writes, and whether it closes the link.
pub fn link<W: Wait>(
    rt: &W,
    alloc: Global,
    at: &mut Connected,
    input: &str,
    out: &mut Said,
) -> Result<(), Wrong> {
    let (mut come, mut go) = link_of(alloc, input)?;
    let turn = relay_link(rt, &mut at.channel, &mut at.core, &mut come, &mut go);
    say_came(at, turn, out)?;
    out.text(b", wrote ");
    out.hex(alloc, go.taken());
    if go.is_closed() {
        out.text(b", closed");
    }
    Ok(())
}
