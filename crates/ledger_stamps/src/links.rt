// The stamps of links.
ghost use Rattle.std.specs.Prelude.{◌≡◌, ◌<◌, ◌++◌, ◌∷◌, [], length, slice_get, Some, IfOk, OnOk, OnErr};
ghost use Rattle.ledger_stamps.specs.Steps.{changed, changed_at, gone_link, new_link, read_link, stamped};

use crate::place::{index_of, stamp};
use attempt_ledger::LinkSeen;
use grpc_base::{Items, NoMemory};

/// Adds a link of a subchannel that came up in this entry, and reports its number. Past 4,294,967,295 links the answer is that of no
/// memory. Where it is, the links are as before.
pub fn add_link(links: &mut Items<LinkSeen>, sub: u32, entry: u64) -> Result<u32, NoMemory>
    ensures number { IfOk result (λ number. number ≡ length links.new) }
    ensures ok { OnOk result (links.new ≡ links.old ++ new_link sub entry ∷ []) }
    ensures err { OnErr result (links.new ≡ links.old) }
{
    let before = links.len();
    if before >= u32::MAX as usize {
        return Err(NoMemory);
    }
    links.push(LinkSeen {
        sub,
        up: entry,
        gone: None,
        read: 0,
    })?;
    Ok(before as u32 + 1)
}

/// The link is gone after this entry.
pub fn link_gone(links: &mut Items<LinkSeen>, link: u32, entry: u64)
    ensures { links.new ≡ changed_at (gone_link entry) links.old link }
{
    if let Some(index) = index_of(u64::from(link), links.len()) {
        gone_at(links, index, entry);
    }
}

/// The bytes of the link up to the last frame that was applied; the count is replaced.
pub fn link_read(links: &mut Items<LinkSeen>, link: u32, read: u64)
    ensures { links.new ≡ changed_at (read_link read) links.old link }
{
    if let Some(index) = index_of(u64::from(link), links.len()) {
        read_at(links, index, read);
    }
}

fn link_at(links: &Items<LinkSeen>, index: usize) -> Option<LinkSeen>
    ensures { result ≡ slice_get links.now index }
{
    match links.get(index) {
        Some(seen) => Some(*seen),
        None => None,
    }
}

#[tactic(auto, using(crate::proofs::Places::past_none))]
fn gone_at(links: &mut Items<LinkSeen>, index: usize, entry: u64)
    ensures { links.new ≡ changed (gone_link entry) links.old index }
{
    match link_at(links, index) {
        Some(seen) => put_gone(links, index, seen, entry),
        None => (),
    }
}

fn put_gone(links: &mut Items<LinkSeen>, index: usize, seen: LinkSeen, entry: u64)
    requires { slice_get links.old index ≡ Some seen }
    ensures { links.new ≡ changed (gone_link entry) links.old index }
{
    let after = stamp_gone(seen, entry);
    links.put(index, after);
}

#[tactic(auto, using(crate::proofs::Places::past_none))]
fn read_at(links: &mut Items<LinkSeen>, index: usize, read: u64)
    ensures { links.new ≡ changed (read_link read) links.old index }
{
    match link_at(links, index) {
        Some(seen) => put_read(links, index, seen, read),
        None => (),
    }
}

fn put_read(links: &mut Items<LinkSeen>, index: usize, seen: LinkSeen, read: u64)
    requires { slice_get links.old index ≡ Some seen }
    ensures { links.new ≡ changed (read_link read) links.old index }
{
    let after = LinkSeen { read, ..seen };
    links.put(index, after);
}

fn stamp_gone(link: LinkSeen, entry: u64) -> LinkSeen
    ensures { result ≡ gone_link entry link }
{
    LinkSeen {
        gone: stamp(link.gone, entry),
        ..link
    }
}
