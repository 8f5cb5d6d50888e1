// Links that are over, and the control frames that are queued on them.
ghost use Rattle.std.specs.Prelude.{◌++◌, ◌≡◌, ◌∷◌, [], OnOk, Some};
ghost use Rattle.session_actions.specs.Links.{link_over, owed};
ghost use Rattle.session_actions.specs.Words.{changed};
ghost use Rattle.session_actions.specs.Writing.{link_broken, link_lost};

use crate::entries::replied;
use crate::table::Table;
use grpc_base::{Items, NoMemory, Reply};
use session_actions::{Link, LinkOver, Seen, WireFrame};
use std::alloc::Global;
use std::mem;

#[tactic(auto, using(crate::proofs::Places::put_changed, crate::proofs::Places::none_changed))]
fn end(links: &mut Table<Link>, link: u32, why: LinkOver)
    ensures { links.new ≡ changed (λ l. record l { over = Some why }) link links.old }
{
    if let Some(found) = links.get_mut(u64::from(link)) {
        found.over = Some(why);
    }
}

/// A link is over.
pub fn link_over(alloc: Global, seen: &mut Seen, why: LinkOver, link: u32)
    ensures { seen.new ≡ link_over why link seen.old }
{
    let mut links = Table::take(alloc, &mut seen.links);
    end(&mut links, link, why);
    seen.links = links.into_items();
}

/// The peer broke a rule of the whole link.
pub fn link_broken(alloc: Global, seen: &mut Seen, link: u32)
    ensures { seen.new ≡ link_broken link seen.old }
{
    link_over(alloc, seen, LinkOver::Broken, link);
    seen.wants = true;
}

/// The environment lost the link.
pub fn link_lost(alloc: Global, seen: &mut Seen, link: u32)
    ensures { seen.new ≡ link_lost link seen.old }
{
    link_over(alloc, seen, LinkOver::Lost, link);
    seen.wants = true;
    replied(seen, Reply::Done);
}

/// Frames after those of a list.
pub fn append(
    alloc: Global,
    list: &mut Items<WireFrame>,
    mut frames: Vec<WireFrame>,
) -> Result<(), NoMemory>
    ensures { OnOk result (list.new ≡ list.old ++ frames.items) }
{
    let mut all = mem::replace(list, Items::new(alloc)).into_vec();
    all.append(&mut frames)?;
    *list = Items::of_vec(all);
    Ok(())
}

#[tactic(auto, using(crate::proofs::Places::put_on, crate::proofs::Places::none_changed))]
fn add_owed(
    alloc: Global,
    links: &mut Table<Link>,
    frames: Vec<WireFrame>,
    link: u32,
) -> Result<(), NoMemory>
    ensures { OnOk result (links.new ≡ changed (λ l. record l { owed = l.owed ++ frames.items }) link links.old) }
{
    match links.get_mut(u64::from(link)) {
        Some(found) => append(alloc, &mut found.owed, frames),
        None => Ok(()),
    }
}

/// Control frames are queued on a link.
pub fn owe_all(
    alloc: Global,
    seen: &mut Seen,
    frames: Vec<WireFrame>,
    link: u32,
) -> Result<(), NoMemory>
    ensures { OnOk result (seen.new ≡ owed frames.items link seen.old) }
{
    let mut links = Table::take(alloc, &mut seen.links);
    add_owed(alloc, &mut links, frames, link)?;
    seen.links = links.into_items();
    Ok(())
}

/// A control frame is queued on a link.
pub fn owe(alloc: Global, seen: &mut Seen, frame: WireFrame, link: u32) -> Result<(), NoMemory>
    ensures { OnOk result (seen.new ≡ owed (frame ∷ []) link seen.old) }
{
    let mut frames = Vec::new(alloc);
    frames.push(frame)?;
    owe_all(alloc, seen, frames, link)
}
