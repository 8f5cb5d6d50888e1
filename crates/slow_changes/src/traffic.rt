// What is read and written on links.
ghost use Rattle.std.specs.Prelude.{◌++◌, ◌≡◌, ◌∷◌, [], IfOk, OnOk, Some, option_map};
ghost use Rattle.grpc_base.specs.declared.event.Reply.TheVariants as reply;
ghost use Rattle.session_actions.specs.Entries.{replied, with_entry};
ghost use Rattle.session_actions.specs.Links.{owed, with_link};
ghost use Rattle.session_actions.specs.Words.{changed};
ghost use Rattle.session_actions.specs.Writing.{bytes_given, ping_of, with_frame_read, with_piece, with_written_bytes};
ghost use Rattle.session_actions.specs.declared.entry.OpenEntry.{OpenEntry};
ghost use Rattle.session_actions.specs.declared.link.Traffic.TheVariants as traffic;

use crate::entries::replied;
use crate::links::{append, owe_all};
use crate::posted::posted_ping;
use crate::table::Table;
use bytes::BytesMut;
use grpc_base::{Event, NoMemory, Octets, Reply};
use session_actions::{Link, OpenEntry, ReadFrame, Seen, Sent, Traffic, WireFrame};
use slow_link::bytes_of;
use std::alloc::Global;

/// Bytes, and others after them.
fn joined(alloc: Global, first: &[u8], second: &[u8]) -> Result<Octets, NoMemory>
    ensures { IfOk result (λ o. o ≡ first.now ++ second.now) }
{
    let mut bytes = BytesMut::new(alloc);
    bytes.extend_from_slice(first)?;
    bytes.extend_from_slice(second)?;
    Octets::of_buffer(bytes)
}

fn add_piece(alloc: Global, link: &mut Link, event: &Event) -> Result<(), NoMemory>
    ensures { OnOk result (link.new ≡ with_piece event.now link.old) }
{
    if let Event::Arrived { link: _, piece } = event {
        link.received = joined(alloc, link.received.as_slice(), piece.as_slice())?;
    }
    Ok(())
}

#[tactic(auto, using(crate::proofs::Places::put_on, crate::proofs::Places::none_changed))]
fn receive_by(
    alloc: Global,
    links: &mut Table<Link>,
    event: &Event,
    link: u32,
) -> Result<(), NoMemory>
    ensures { OnOk result (links.new ≡ changed (with_piece event.now) link links.old) }
{
    match links.get_mut(u64::from(link)) {
        Some(found) => add_piece(alloc, found, event),
        None => Ok(()),
    }
}

fn receive(
    alloc: Global,
    links: &mut Table<Link>,
    current: &Option<OpenEntry>,
    link: u32,
) -> Result<(), NoMemory>
    ensures { (o : OpenEntry) → current.now ≡ Some o → OnOk result (links.new ≡ changed (with_piece o.event) link links.old) }
{
    match current {
        Some(open) => receive_by(alloc, links, &open.event, link),
        None => Ok(()),
    }
}

/// Bytes of the server came.
pub fn bytes_arrived(alloc: Global, seen: &mut Seen, link: u32) -> Result<(), NoMemory>
    ensures { (o : OpenEntry) → seen.old.current ≡ Some o → OnOk result (seen.new ≡ replied reply.Done (with_link (with_piece o.event) link seen.old)) }
{
    let mut links = Table::take(alloc, &mut seen.links);
    receive(alloc, &mut links, &seen.current, link)?;
    seen.links = links.into_items();
    replied(seen, Reply::Done);
    Ok(())
}

/// A PING of the environment is queued.
pub fn ping_queued(alloc: Global, seen: &mut Seen, link: u32) -> Result<(), NoMemory>
    ensures { (o : OpenEntry) → seen.old.current ≡ Some o → OnOk result (seen.new ≡ replied reply.Done (owed (ping_of o.event) link seen.old)) }
{
    let frames = posted_ping(alloc, seen)?;
    owe_all(alloc, seen, frames, link)?;
    replied(seen, Reply::Done);
    Ok(())
}

fn add_read(
    alloc: Global,
    link: &mut Link,
    read: ReadFrame,
    frames: Vec<WireFrame>,
) -> Result<(), NoMemory>
    ensures { OnOk result (link.new ≡ with_frame_read read frames.items link.old) }
{
    link.traffic.push(Traffic::Read { read })?;
    append(alloc, &mut link.owed, frames)
}

#[tactic(auto, using(crate::proofs::Places::put_on, crate::proofs::Places::none_changed))]
fn read_in(
    alloc: Global,
    links: &mut Table<Link>,
    link: u32,
    read: ReadFrame,
    frames: Vec<WireFrame>,
) -> Result<(), NoMemory>
    ensures { OnOk result (links.new ≡ changed (with_frame_read read frames.items) link links.old) }
{
    match links.get_mut(u64::from(link)) {
        Some(found) => add_read(alloc, found, read, frames),
        None => Ok(()),
    }
}

/// A frame is read on a link, and these are queued for it.
pub fn frame_read(
    alloc: Global,
    seen: &mut Seen,
    link: u32,
    read: ReadFrame,
    frames: Vec<WireFrame>,
) -> Result<(), NoMemory>
    ensures { OnOk result (seen.new ≡ with_link (with_frame_read read frames.items) link seen.old) }
{
    let mut links = Table::take(alloc, &mut seen.links);
    read_in(alloc, &mut links, link, read, frames)?;
    seen.links = links.into_items();
    Ok(())
}

/// The bytes that a Drain gave so far.
fn bytes_given(reply: &Option<Reply>) -> &[u8]
    ensures { result.now ≡ bytes_given reply.now }
{
    match reply {
        Some(Reply::Octets { octets }) => octets.as_slice(),
        _ => &[],
    }
}

fn with_written(
    alloc: Global,
    current: Option<OpenEntry>,
    sent: &Sent,
) -> Result<Option<OpenEntry>, NoMemory>
    ensures { IfOk result (λ c. c ≡ option_map (with_written_bytes sent.now) current) }
{
    match current {
        Some(mut open) => {
            let more = bytes_of(alloc, sent)?;
            let octets = joined(alloc, bytes_given(&open.reply), more.as_slice())?;
            open.reply = Some(Reply::Octets { octets });
            Ok(Some(open))
        }
        None => Ok(None),
    }
}

#[tactic(auto, using(crate::proofs::Places::put_on, crate::proofs::Places::none_changed))]
fn add_written(links: &mut Table<Link>, link: u32, sent: Sent) -> Result<(), NoMemory>
    ensures { OnOk result (links.new ≡ changed (λ k. record k { traffic = k.traffic ++ traffic.Written sent ∷ [] }) link links.old) }
{
    match links.get_mut(u64::from(link)) {
        Some(found) => found.traffic.push(Traffic::Written { sent }),
        None => Ok(()),
    }
}

/// A frame, or the preface, is written on a link, and joins the bytes that the Drain gives.
pub fn frame_written(alloc: Global, seen: &mut Seen, link: u32, sent: Sent) -> Result<(), NoMemory>
    ensures { OnOk result (seen.new ≡ with_entry (with_written_bytes sent) (with_link (λ k. record k { traffic = k.traffic ++ traffic.Written sent ∷ [] }) link seen.old)) }
{
    let current = seen.current.take();
    seen.current = with_written(alloc, current, &sent)?;
    let mut links = Table::take(alloc, &mut seen.links);
    add_written(&mut links, link, sent)?;
    seen.links = links.into_items();
    Ok(())
}
