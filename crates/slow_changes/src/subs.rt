// What happens to subchannels.
ghost use Rattle.std.specs.Prelude.{◌++◌, ◌+◌, ◌≡◌, ◌∷◌, [], IfOk, OnOk, Some, length};
ghost use Rattle.std.specs.Option.{option_map_or};
ghost use Rattle.session_actions.specs.Subchannels.{connect_timed_out, dial_failed, dial_taken, gone_down, link_timed_out, link_up, new_link, new_sub, sub_added, with_dial, with_sub, without_link};
ghost use Rattle.session_actions.specs.Links.{link_over};
ghost use Rattle.session_actions.specs.Words.{changed, numbered};
ghost use Rattle.session_actions.specs.declared.link.LinkOver.TheVariants as over;
ghost use Rattle.slow_changes.specs.Parts.{linked, noted_for, sub_change};

use crate::entries::{drawn_if, replied};
use crate::links::link_over;
use crate::policies::noted_by_policies;
use crate::table::Table;
use grpc_base::{Address, Conn, Items, NoMemory, Octets, Reply};
use session_actions::{Link, LinkOver, Seen, Subchannel};
use slow_attempts::{entry, fits_in_32_bits, numbered, sum};
use slow_net::is_ready;
use std::alloc::Global;

/// How a subchannel changes.
#[derive(Clone, Copy, Debug, PartialEq, Eq)]
pub enum SubChange {
    /// It is in this state.
    State(Conn),
    /// It is in this state, and has no link any longer.
    Unlinked(Conn),
    /// The server's SETTINGS came on its link.
    Ready,
    /// Its link is lost, broken or retiring.
    Down,
    /// A dial of it is taken.
    Dial { again: u64, until: u64 },
    /// Its dial is this link.
    Link(u32),
}

fn unlinked(sub: Subchannel, state: Conn) -> Subchannel
    ensures { result ≡ without_link state sub }
{
    Subchannel {
        state,
        until: None,
        link: None,
        ..sub
    }
}

fn gone_down(sub: Subchannel) -> Subchannel
    ensures { result ≡ gone_down sub }
{
    if is_ready(sub.state) {
        unlinked(sub, Conn::Idle)
    } else {
        unlinked(sub, Conn::Failure)
    }
}

fn with_dial(sub: Subchannel, again: u64, until: u64) -> Result<Subchannel, NoMemory>
    ensures { IfOk result (λ b. b ≡ with_dial again until sub) }
{
    Ok(Subchannel {
        dials: sub.dials.checked_add(1).ok_or(NoMemory)?,
        again: Some(again),
        until: Some(until),
        ..sub
    })
}

/// A subchannel, changed.
fn changed_sub(change: SubChange, sub: Subchannel) -> Result<Subchannel, NoMemory>
    ensures { IfOk result (λ b. b ≡ sub_change change sub) }
{
    match change {
        SubChange::State(state) => Ok(Subchannel { state, ..sub }),
        SubChange::Unlinked(state) => Ok(unlinked(sub, state)),
        SubChange::Ready => Ok(Subchannel {
            state: Conn::Ready,
            dials: 0,
            until: None,
            ..sub
        }),
        SubChange::Down => Ok(gone_down(sub)),
        SubChange::Dial { again, until } => with_dial(sub, again, until),
        SubChange::Link(link) => Ok(Subchannel {
            link: Some(link),
            ..sub
        }),
    }
}

fn change_one(sub: &mut Subchannel, change: SubChange) -> Result<(), NoMemory>
    ensures { OnOk result (sub.new ≡ sub_change change sub.old) }
{
    *sub = changed_sub(change, *sub)?;
    Ok(())
}

#[tactic(auto, using(crate::proofs::Places::put_on, crate::proofs::Places::none_changed))]
fn change_in(subs: &mut Table<Subchannel>, change: SubChange, sub: u32) -> Result<(), NoMemory>
    ensures { OnOk result (subs.new ≡ changed (sub_change change) sub subs.old) }
{
    match subs.get_mut(u64::from(sub)) {
        Some(found) => change_one(found, change),
        None => Ok(()),
    }
}

/// The live policies note the state of a subchannel, if there is one.
fn noted_for(alloc: Global, seen: &mut Seen, sub: u32) -> Result<(), NoMemory>
    ensures { OnOk result (seen.new ≡ noted_for (numbered seen.old.subs sub) seen.old) }
{
    let found = match numbered(&seen.subs, u64::from(sub)) {
        Some(found) => *found,
        None => return Ok(()),
    };
    noted_by_policies(alloc, seen, found)
}

/// A subchannel changes, and the live policies that have it in their views note its state.
#[tactic(auto, using(crate::proofs::Steps::sub_noted))]
pub fn with_sub(alloc: Global, seen: &mut Seen, change: SubChange, sub: u32) -> Result<(), NoMemory>
    ensures { OnOk result (seen.new ≡ with_sub (sub_change change) sub seen.old) }
{
    let mut subs = Table::take(alloc, &mut seen.subs);
    change_in(&mut subs, change, sub)?;
    seen.subs = subs.into_items();
    noted_for(alloc, seen, sub)
}

/// An address gets a subchannel, which is IDLE.
pub fn sub_added(seen: &mut Seen, address: Address) -> Result<(), NoMemory>
    ensures { OnOk result (seen.new ≡ sub_added address seen.old) }
{
    let number = fits_in_32_bits(sum(seen.subs.len() as u64, 1)?)?;
    seen.subs.push(Subchannel {
        number,
        address,
        state: Conn::Idle,
        dials: 0,
        again: None,
        until: None,
        link: None,
    })
}

/// The environment takes a dial.
pub fn dial_taken(
    alloc: Global,
    seen: &mut Seen,
    sub: u32,
    again: u64,
    until: u64,
) -> Result<(), NoMemory>
    ensures { OnOk result (seen.new ≡ dial_taken sub again until seen.old) }
{
    let found = match numbered(&seen.subs, u64::from(sub)) {
        Some(found) => *found,
        None => return Ok(()),
    };
    with_sub(alloc, seen, SubChange::Dial { again, until }, found.number)?;
    drawn_if(seen, found.dials != 0)?;
    replied(
        seen,
        Reply::Dial {
            sub: found.number,
            address: found.address,
            until,
        },
    );
    Ok(())
}

/// The environment could not connect.
pub fn dial_failed(alloc: Global, seen: &mut Seen, sub: u32) -> Result<(), NoMemory>
    ensures { OnOk result (seen.new ≡ dial_failed sub seen.old) }
{
    seen.wants = true;
    with_sub(alloc, seen, SubChange::Unlinked(Conn::Failure), sub)?;
    replied(seen, Reply::Done);
    Ok(())
}

/// The link of a subchannel is over, since no SETTINGS came on it in time.
fn link_timed_out(alloc: Global, seen: &mut Seen, link: Option<u32>)
    ensures { seen.new ≡ option_map_or (λ n. link_over over.TimedOut n seen.old) link seen.old }
{
    if let Some(link) = link {
        link_over(alloc, seen, LinkOver::TimedOut, link);
    }
}

fn timed_out(alloc: Global, seen: &mut Seen, sub: u32)
    ensures { seen.new ≡ option_map_or (λ b. link_timed_out b seen.old) (numbered seen.old.subs sub) seen.old }
{
    let link = match numbered(&seen.subs, u64::from(sub)) {
        Some(found) => found.link,
        None => return,
    };
    link_timed_out(alloc, seen, link);
}

/// A connection took too long.
pub fn connect_timed_out(alloc: Global, seen: &mut Seen, sub: u32) -> Result<(), NoMemory>
    ensures { OnOk result (seen.new ≡ connect_timed_out sub seen.old) }
{
    timed_out(alloc, seen, sub);
    seen.wants = true;
    with_sub(alloc, seen, SubChange::Unlinked(Conn::Failure), sub)
}

fn new_link(alloc: Global, number: u32, sub: u32, seen: &Seen) -> Result<Link, NoMemory>
    ensures { IfOk result (λ l. l ≡ new_link number sub seen.now) }
{
    Ok(Link {
        number,
        sub,
        up: entry(seen)?,
        received: Octets::new(),
        traffic: Items::new(alloc),
        owed: Items::new(alloc),
        over: None,
        gone: None,
    })
}

/// The dial of a subchannel is the link of this number.
fn linked(alloc: Global, seen: &mut Seen, sub: u32, number: u32) -> Result<(), NoMemory>
    ensures { OnOk result (seen.new ≡ linked number sub seen.old) }
{
    let link = new_link(alloc, number, sub, seen)?;
    seen.links.push(link)?;
    with_sub(alloc, seen, SubChange::Link(number), sub)?;
    replied(seen, Reply::Link { link: number });
    Ok(())
}

/// A dial is a connection, which gets the next number.
#[tactic(auto, using(crate::proofs::Steps::linked_is))]
pub fn link_up(alloc: Global, seen: &mut Seen, sub: u32) -> Result<(), NoMemory>
    ensures { OnOk result (seen.new ≡ link_up sub seen.old) }
{
    let number = fits_in_32_bits(sum(seen.links.len() as u64, 1)?)?;
    linked(alloc, seen, sub, number)
}
