// The links of subchannels.
ghost use Rattle.std.specs.Prelude.{◌≡◌, ◌==◌, ◌++◌, find, option_to_list, IfOk, OnOk};
ghost use Rattle.channel_net.specs.Lists as lists;

use crate::boards::is_live_at;
use grpc_base::{Items, NoMemory};
use std::alloc::Global;
use subchannel::Board;

/// The link of a subchannel, while it is the subchannel's own: until it is lost, broken, retiring or timed out, or the
/// subchannel is SHUTDOWN.
#[derive(Clone, Copy, Debug, PartialEq, Eq)]
pub struct OwnLink {
    pub sub: u32,
    pub link: u32,
}

/// The link of a subchannel.
pub fn link_in(links: &[OwnLink], sub: u32) -> Option<u32>
    ensures { result ≡ lists.link_of links.now sub }
{
    match own_in(links, sub) {
        Some(own) => Some(own.link),
        None => None,
    }
}

fn own_in(links: &[OwnLink], sub: u32) -> Option<OwnLink>
    ensures { result ≡ find (λ own. own.sub == sub) links.now }
{
    links.iter().copied().find(|own| own.sub == sub)
}

/// Adds a link to a list, if there is one.
pub fn push_link(list: &mut Items<u32>, link: Option<u32>) -> Result<(), NoMemory>
    ensures { OnOk result (list.new ≡ list.old ++ option_to_list link) }
{
    match link {
        Some(link) => list.push(link),
        None => Ok(()),
    }
}

/// The links of subchannels that are SHUTDOWN.
pub fn shut_in(alloc: Global, links: &[OwnLink], board: &Board) -> Result<Items<u32>, NoMemory>
    ensures { IfOk result (λ shut. shut ≡ lists.shut_links board.now links.now) }
{
    let shut = links
        .iter()
        .copied()
        .filter(|own| !is_live_at(board, own.sub))
        .map(|own| own.link)
        .collect(alloc)?;
    Ok(Items::of_vec(shut))
}

/// Forgets the links of a subchannel.
pub fn forget(links: &mut Vec<OwnLink>, sub: u32)
    ensures { links.new.items ≡ lists.without sub links.old.items }
{
    links.retain(|own| own.sub != sub);
}

/// Forgets the links of subchannels that are SHUTDOWN.
pub fn forget_shut(links: &mut Vec<OwnLink>, board: &Board)
    ensures { links.new.items ≡ lists.live_links board.now links.old.items }
{
    links.retain(|own| is_live_at(board, own.sub));
}
