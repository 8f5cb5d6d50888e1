// What a board does to keep two lists of addresses.
ghost use Rattle.std.specs.Prelude.{◌≡◌, ◌≤◌, ◌+◌, ◌++◌, ◌||◌, [], length, map, filter, IfOk, OnOk};
ghost use Rattle.std.specs.Vec.{vec_len};
ghost use Rattle.grpc_base.specs.Addresses.{has_address};
ghost use Rattle.subchannel.specs.Records.{new_sub};
ghost use Rattle.subchannel.specs.Boards.{changed, changed_at, has_live, kept_or_shut, lacking, passes};
ghost use Rattle.subchannel.specs.Insides.{kept_numbers, live_numbers, made_limit, numbers_from, stays};

use crate::scan::{first_of_address, is_live_sub, sub_at};
use crate::sub::Subchannel;
use grpc_base::{Address, AddressList, NoMemory};
use std::alloc::Global;

/// A subchannel for each address of the two lists that has no live one.
pub fn new_subs(
    alloc: Global,
    subs: &[Subchannel],
    live: &[u32],
    current: &AddressList,
    pending: &AddressList,
) -> Result<Vec<Subchannel>, NoMemory>
    requires { live.now ≡ live_numbers 1 subs.now }
    ensures made { IfOk result (λ v. v.items ≡ map new_sub (lacking subs.now [] current.now ++ lacking subs.now current.now pending.now)) }
    ensures few { IfOk result (λ v. vec_len v ≤ 128) }
{
    let mut added = Vec::new(alloc);
    push_lacking(
        &mut added,
        subs,
        live,
        &AddressList::new(),
        current.as_slice(),
    )?;
    push_lacking(&mut added, subs, live, current, pending.as_slice())?;
    Ok(added)
}

/// Appends a subchannel for each of these addresses that has no live one and is not among the others.
fn push_lacking(
    added: &mut Vec<Subchannel>,
    subs: &[Subchannel],
    live: &[u32],
    others: &AddressList,
    addresses: &[Address],
) -> Result<(), NoMemory>
    requires { live.now ≡ live_numbers 1 subs.now }
    ensures made { OnOk result (added.new.items ≡ added.old.items ++ map new_sub (lacking subs.now others.now addresses.now)) }
    ensures few { OnOk result (vec_len added.new ≤ vec_len added.old + length addresses.now) }
{
    for address in addresses {
        if !has_live_sub(subs, live, *address) && !others.has(*address) {
            added.push(Subchannel::new(*address))?;
        }
    }
    Ok(())
}

/// Whether a live subchannel is of this address.
fn has_live_sub(subs: &[Subchannel], live: &[u32], address: Address) -> bool
    requires { live.now ≡ live_numbers 1 subs.now }
    ensures { result ≡ has_live subs.now address }
{
    first_of_address(subs, live, address).is_some()
}

/// The numbers that stay live, and those of as many new subchannels after all others.
pub fn live_after(
    alloc: Global,
    subs: &[Subchannel],
    live: &[u32],
    current: &AddressList,
    pending: &AddressList,
    added: usize,
) -> Result<Vec<u32>, NoMemory>
    requires { length subs.now + added ≤ made_limit }
    ensures { IfOk result (λ v. v.items ≡ filter (passes (stays current.now pending.now) subs.now) live.now ++ numbers_from (length subs.now + 1) added) }
{
    let mut numbers = staying(alloc, subs, live, current, pending)?;
    let mut next = subs.len() as u32;
    for count in 0..added {
        next += 1;
        numbers.push(next)?;
    }
    Ok(numbers)
}

/// Those of these numbers whose subchannels stay live.
fn staying(
    alloc: Global,
    subs: &[Subchannel],
    live: &[u32],
    current: &AddressList,
    pending: &AddressList,
) -> Result<Vec<u32>, NoMemory>
    ensures { IfOk result (λ v. v.items ≡ filter (passes (stays current.now pending.now) subs.now) live.now) }
{
    let numbers = live
        .iter()
        .copied()
        .filter(|number| stays_at(subs, *number, current, pending))
        .collect(alloc)?;
    Ok(numbers)
}

fn stays_at(subs: &[Subchannel], number: u32, current: &AddressList, pending: &AddressList) -> bool
    ensures { result ≡ passes (stays current.now pending.now) subs.now number }
{
    match sub_at(subs, number) {
        Some(sub) => is_live_sub(sub) && is_in(sub, current, pending),
        None => false,
    }
}

/// Whether its address is in one of the lists.
fn is_in(sub: &Subchannel, current: &AddressList, pending: &AddressList) -> bool
    ensures { result ≡ (has_address current.now sub.now.address || has_address pending.now sub.now.address) }
{
    current.has(sub.address()) || pending.has(sub.address())
}

/// Shuts each subchannel of these numbers whose address is in neither list.
pub fn shut_unwanted(
    subs: &mut Vec<Subchannel>,
    live: &[u32],
    current: &AddressList,
    pending: &AddressList,
)
    ensures { subs.new.items ≡ kept_numbers current.now pending.now live.now subs.old.items }
{
    for number in live {
        shut_at(subs, *number, current, pending);
    }
}

/// Shuts the subchannel of a number if its address is in neither list.
fn shut_at(subs: &mut Vec<Subchannel>, number: u32, current: &AddressList, pending: &AddressList)
    ensures { subs.new.items ≡ changed_at (kept_or_shut current.now pending.now) subs.old.items number }
{
    if let Some(place) = number.checked_sub(1) {
        shut_place(subs, place as usize, current, pending);
    }
}

/// Shuts the subchannel at a place if its address is in neither list.
fn shut_place(
    subs: &mut Vec<Subchannel>,
    place: usize,
    current: &AddressList,
    pending: &AddressList,
)
    ensures { subs.new.items ≡ changed (kept_or_shut current.now pending.now) subs.old.items place }
{
    if place < subs.len() {
        let sub = &mut subs[place];
        shut_if_unwanted(sub, current, pending);
    }
}

fn shut_if_unwanted(sub: &mut Subchannel, current: &AddressList, pending: &AddressList)
    ensures { sub.new ≡ kept_or_shut current.now pending.now sub.old }
{
    if is_live_sub(sub) && !is_in(sub, current, pending) {
        sub.shut();
    }
}
