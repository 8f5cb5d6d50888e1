// The live subchannels looked through by number.
ghost use Rattle.std.specs.Prelude.{◌≡◌, find, IfSome};
ghost use Rattle.std.specs.Option.{option_copied};
ghost use Rattle.subchannel.specs.Records.{is_dialable, is_due, is_live};
ghost use Rattle.subchannel.specs.Boards.{numbered, is_live_at, first_number, passes, HasNumber};
ghost use Rattle.subchannel.specs.Insides.{live_numbers};

use crate::sub::Subchannel;
use grpc_base::{Address, Conn};

/// The subchannel of a number.
pub fn sub_at(subs: &[Subchannel], number: u32) -> Option<&Subchannel>
    ensures { option_copied result ≡ numbered subs.now number }
{
    let place = number.checked_sub(1)?;
    subs.get(place as usize)
}

/// The first of these numbers whose subchannel is of this address and live.
pub fn first_of_address(subs: &[Subchannel], live: &[u32], address: Address) -> Option<u32>
    ensures { result ≡ find (passes (is_live_at address) subs.now) live.now }
{
    live.iter()
        .copied()
        .find(|number| is_of_address(subs, *number, address))
}

/// The first of these numbers whose subchannel may be dialled.
pub fn first_dialable(subs: &[Subchannel], live: &[u32]) -> Option<u32>
    ensures { result ≡ find (passes is_dialable subs.now) live.now }
{
    live.iter()
        .copied()
        .find(|number| is_dialable_at(subs, *number))
}

/// The lowest number of a subchannel that the clock changes by this moment.
pub fn due_number(subs: &[Subchannel], live: &[u32], moment: u64) -> Option<u32>
    requires { live.now ≡ live_numbers 1 subs.now }
    ensures value { result ≡ first_number (is_due moment) subs.now }
    ensures number { IfSome result (λ n. HasNumber subs.now n) }
{
    first_due(subs, live, moment)
}

/// The first of these numbers whose subchannel the clock changes by this moment.
fn first_due(subs: &[Subchannel], live: &[u32], moment: u64) -> Option<u32>
    ensures { result ≡ find (passes (is_due moment) subs.now) live.now }
{
    live.iter()
        .copied()
        .find(|number| is_due_at(subs, *number, moment))
}

fn is_of_address(subs: &[Subchannel], number: u32, address: Address) -> bool
    ensures { result ≡ passes (is_live_at address) subs.now number }
{
    match sub_at(subs, number) {
        Some(sub) => is_live_sub(sub) && sub.address() == address,
        None => false,
    }
}

pub fn is_live_sub(sub: &Subchannel) -> bool
    ensures { result ≡ is_live sub.now }
{
    !matches!(sub.state(), Conn::Shutdown)
}

fn is_dialable_at(subs: &[Subchannel], number: u32) -> bool
    ensures { result ≡ passes is_dialable subs.now number }
{
    match sub_at(subs, number) {
        Some(sub) => sub.is_dialable(),
        None => false,
    }
}

fn is_due_at(subs: &[Subchannel], number: u32, moment: u64) -> bool
    ensures { result ≡ passes (is_due moment) subs.now number }
{
    match sub_at(subs, number) {
        Some(sub) => sub.next().is_some_and(|due| due <= moment),
        None => false,
    }
}
