// The lists of addresses of generations, and the views that their policies get.
ghost use Rattle.std.specs.Prelude.{◌≡◌, ◌≤◌, ◌<◌, ◌+◌, ◌++◌, length, option_to_list, IfOk, OnOk};
ghost use Rattle.grpc_base.specs.Addresses.{IsWithoutRepeats, address_limit, with_address};
ghost use Rattle.lb_policy.specs.Table.{IsView};
ghost use Rattle.channel_net.specs.Lists.{each_once, seen_at, view_of};

use grpc_base::{Address, AddressList, NoMemory};
use lb_policy::SubSeen;
use std::alloc::Global;
use subchannel::Board;

/// The live subchannels of these addresses with their states, in the order of the list.
pub fn view_of(
    alloc: Global,
    board: &Board,
    addresses: &AddressList,
) -> Result<Vec<SubSeen>, NoMemory>
    requires { IsWithoutRepeats addresses.now }
    ensures view { IfOk result (λ view. view.items ≡ view_of board.now addresses.now) }
    ensures is_view { IfOk result (λ view. IsView view.items) }
{
    view_in(alloc, board, addresses.as_slice())
}

fn view_in(alloc: Global, board: &Board, addresses: &[Address]) -> Result<Vec<SubSeen>, NoMemory>
    ensures { IfOk result (λ view. view.items ≡ view_of board.now addresses.now) }
{
    let mut view = Vec::new(alloc);
    for address in addresses {
        push_seen(&mut view, seen_at(board, *address))?;
    }
    Ok(view)
}

fn push_seen(view: &mut Vec<SubSeen>, seen: Option<SubSeen>) -> Result<(), NoMemory>
    ensures { OnOk result (view.new.items ≡ view.old.items ++ option_to_list seen) }
{
    if let Some(seen) = seen {
        view.push(seen)?;
    }
    Ok(())
}

/// The live subchannel of an address with its state.
fn seen_at(board: &Board, address: Address) -> Option<SubSeen>
    ensures { result ≡ seen_at board.now address }
{
    let sub = board.find(address)?;
    let found = board.at(sub)?;
    let state = found.state();
    Some(SubSeen { sub, state })
}

/// The same list.
pub fn copied(addresses: &AddressList) -> AddressList
    ensures list { result ≡ each_once addresses.now }
    ensures no_repeats { IsWithoutRepeats result }
{
    list_of(addresses.as_slice())
}

fn list_of(addresses: &[Address]) -> AddressList
    requires { length addresses.now ≤ address_limit }
    ensures list { result ≡ each_once addresses.now }
    ensures no_repeats { IsWithoutRepeats result }
{
    let mut list = AddressList::new();
    for address in addresses {
        add(&mut list, *address);
    }
    list
}

fn add(list: &mut AddressList, address: Address)
    requires { length list.old < address_limit }
    ensures list { list.new ≡ with_address list.old address }
    ensures no_repeats { IsWithoutRepeats list.old → IsWithoutRepeats list.new }
    ensures one { length list.new ≤ length list.old + 1 }
{
    if list.has(address) {
        return;
    }
    let _fits = list.push(address);
}
