// What subchannels do next: by their links, by the lists of addresses, by the clock, by what policies wish, and which is dialled.
ghost use Rattle.std.specs.Prelude.{◌&&◌, ◌*◌, ◌^◌, ◌≡◌, ◌≤◌, IfOk, find, is_none, nat_le};
ghost use Rattle.std.specs.List.{list_any};
ghost use Rattle.std.specs.Option.{option_copied};
ghost use Rattle.lb_policy.specs.Table.{is_one_of, wish_of};
ghost use Rattle.session_actions.specs.Policies.{is_live_sub, is_same_address, policy_of};
ghost use Rattle.session_actions.specs.Subchannels.{clock_action, dial_action, dial_wait, is_connecting, is_dialable, is_dialling, is_going_down, is_idle, is_rested, is_to_be_ready, is_to_go_down, is_too_late, is_wished, link_action, link_of_sub, next_added, next_connected, next_of_clock, next_of_links, next_shut, take_dial};
ghost use Rattle.session_actions.specs.Entries.{now};
ghost use Rattle.session_actions.specs.Words.{first_of, holds};
ghost use Rattle.slow_net.specs.Parts.{is_unlisted_in};

use crate::policies::{current_policy, is_failure, listed, pending_policy};
use crate::table::is_one_of;
use crate::views::{is_same_address, is_shutdown, live_sub, wish_of};
use a6_numbers::next_connect_wait;
use grpc_base::{Address, Conn, NoMemory, Reply};
use session_actions::{Action, Link, PolicyUse, Seen, Subchannel};
use slow_attempts::{next_word, now, numbered};
use slow_link::{has_settings, is_retiring};
use std::alloc::Global;

fn is_idle(state: Conn) -> bool
    ensures { result ≡ is_idle state }
{
    matches!(state, Conn::Idle)
}

fn is_connecting(state: Conn) -> bool
    ensures { result ≡ is_connecting state }
{
    matches!(state, Conn::Connecting)
}

fn is_dialable(sub: Subchannel) -> bool
    ensures { result ≡ is_dialable sub }
{
    is_connecting(sub.state) && sub.until.is_none()
}

/// Whether the dial of a subchannel is under way.
pub fn is_dialling(sub: Subchannel) -> bool
    ensures { result ≡ is_dialling sub }
{
    is_connecting(sub.state) && sub.until.is_some() && sub.link.is_none()
}

fn link_of_sub(sub: Subchannel, seen: &Seen) -> Option<&Link>
    ensures { option_copied result ≡ link_of_sub sub seen.now }
{
    numbered(&seen.links, u64::from(sub.link?))
}

fn is_to_be_ready(seen: &Seen, sub: Subchannel) -> bool
    ensures { result ≡ is_to_be_ready seen.now sub }
{
    if !is_connecting(sub.state) {
        return false;
    }
    match link_of_sub(sub, seen) {
        Some(link) => has_settings(link),
        None => false,
    }
}

fn is_going_down(link: &Link) -> bool
    ensures { result ≡ is_going_down link.now }
{
    link.over.is_some() || is_retiring(link)
}

fn is_to_go_down(seen: &Seen, sub: Subchannel) -> bool
    ensures { result ≡ is_to_go_down seen.now sub }
{
    match link_of_sub(sub, seen) {
        Some(link) => is_going_down(link),
        None => false,
    }
}

fn link_action(seen: &Seen, sub: Subchannel) -> Option<Action>
    ensures { result ≡ link_action seen.now sub }
{
    if is_to_be_ready(seen, sub) {
        return Some(Action::SettingsArrive { sub: sub.number });
    }
    if is_to_go_down(seen, sub) {
        return Some(Action::LinkDown { sub: sub.number });
    }
    None
}

/// What the links of these subchannels make of them.
fn first_of_links(seen: &Seen, subs: &[Subchannel]) -> Option<Action>
    ensures { result ≡ first_of (link_action seen.now) subs.now }
{
    let (first, rest) = subs.split_first()?;
    match link_action(seen, *first) {
        Some(action) => Some(action),
        None => first_of_links(seen, rest),
    }
}

/// A subchannel becomes READY, or loses its link.
pub fn next_of_links(seen: &Seen) -> Option<Action>
    ensures { result ≡ next_of_links seen.now }
{
    first_of_links(seen, seen.subs.as_slice())
}

fn is_listed(listed: &[Address], sub: Subchannel) -> bool
    ensures { result ≡ list_any (is_same_address sub.address) listed.now }
{
    listed
        .iter()
        .any(|address| is_same_address(sub.address, *address))
}

fn is_unlisted(listed: &[Address], sub: Subchannel) -> bool
    ensures { result ≡ is_unlisted_in listed.now sub }
{
    let found = is_listed(listed, sub);
    !is_shutdown(sub.state) && !found
}

fn first_unlisted(listed: &[Address], subs: &[Subchannel]) -> Option<Subchannel>
    ensures { result ≡ find (is_unlisted_in listed.now) subs.now }
{
    subs.iter().copied().find(|sub| is_unlisted(listed, *sub))
}

/// A subchannel that no list has is shut down.
pub fn next_shut(alloc: Global, seen: &Seen) -> Result<Option<Action>, NoMemory>
    ensures { IfOk result (λ a. a ≡ next_shut seen.now) }
{
    let listed = listed(alloc, seen)?;
    match first_unlisted(listed.as_slice(), seen.subs.as_slice()) {
        Some(sub) => Ok(Some(Action::SubchannelShut { sub: sub.number })),
        None => Ok(None),
    }
}

fn first_without(subs: &[Subchannel], listed: &[Address]) -> Option<Address>
    ensures { result ≡ find (λ address. is_none (find (is_live_sub address) subs.now)) listed.now }
{
    listed
        .iter()
        .copied()
        .find(|address| live_sub(subs, *address).is_none())
}

/// An address that is listed gets a subchannel.
pub fn next_added(alloc: Global, seen: &Seen) -> Result<Option<Action>, NoMemory>
    ensures { IfOk result (λ a. a ≡ next_added seen.now) }
{
    let listed = listed(alloc, seen)?;
    match first_without(seen.subs.as_slice(), listed.as_slice()) {
        Some(address) => Ok(Some(Action::SubchannelAdded { address })),
        None => Ok(None),
    }
}

/// Whether a moment that may not be there has come.
fn has_come(seen: &Seen, moment: Option<u64>) -> bool
    ensures { result ≡ holds (λ t. nat_le t (now seen.now)) moment }
{
    match moment {
        Some(moment) => moment <= now(seen).nanos(),
        None => false,
    }
}

fn is_too_late(seen: &Seen, sub: Subchannel) -> bool
    ensures { result ≡ is_too_late seen.now sub }
{
    is_connecting(sub.state) && has_come(seen, sub.until)
}

fn is_rested(seen: &Seen, sub: Subchannel) -> bool
    ensures { result ≡ is_rested seen.now sub }
{
    is_failure(sub.state) && has_come(seen, sub.again)
}

fn clock_action(seen: &Seen, sub: Subchannel) -> Option<Action>
    ensures { result ≡ clock_action seen.now sub }
{
    if is_too_late(seen, sub) {
        return Some(Action::ConnectTimesOut { sub: sub.number });
    }
    if is_rested(seen, sub) {
        return Some(Action::BackoffEnds { sub: sub.number });
    }
    None
}

fn first_of_clock(seen: &Seen, subs: &[Subchannel]) -> Option<Action>
    ensures { result ≡ first_of (clock_action seen.now) subs.now }
{
    let (first, rest) = subs.split_first()?;
    match clock_action(seen, *first) {
        Some(action) => Some(action),
        None => first_of_clock(seen, rest),
    }
}

/// A connection took too long, or a backoff is over.
pub fn next_of_clock(seen: &Seen) -> Option<Action>
    ensures { result ≡ next_of_clock seen.now }
{
    first_of_clock(seen, seen.subs.as_slice())
}

/// Whether a policy wishes a subchannel connected.
fn wishes(
    alloc: Global,
    seen: &Seen,
    sub: Subchannel,
    policy: Option<&PolicyUse>,
) -> Result<bool, NoMemory>
    ensures { IfOk result (λ b. b ≡ holds (λ g. is_one_of (wish_of (policy_of g seen.now)) sub.number) (option_copied policy.entry)) }
{
    match policy {
        Some(policy) => Ok(is_one_of(wish_of(alloc, policy, seen)?.as_slice(), sub.number)),
        None => Ok(false),
    }
}

#[tactic(auto, using(crate::proofs::LiveLaws::any_live))]
fn is_wished(alloc: Global, seen: &Seen, sub: Subchannel) -> Result<bool, NoMemory>
    ensures { IfOk result (λ b. b ≡ is_wished seen.now sub) }
{
    let now = wishes(alloc, seen, sub, current_policy(seen))?;
    let soon = wishes(alloc, seen, sub, pending_policy(seen))?;
    Ok(now || soon)
}

fn is_to_connect(alloc: Global, seen: &Seen, sub: Subchannel) -> Result<bool, NoMemory>
    ensures { IfOk result (λ b. b ≡ (is_idle sub.state && is_wished seen.now sub)) }
{
    if is_idle(sub.state) {
        is_wished(alloc, seen, sub)
    } else {
        Ok(false)
    }
}

fn first_to_connect(
    alloc: Global,
    seen: &Seen,
    subs: &[Subchannel],
) -> Result<Option<Subchannel>, NoMemory>
    ensures { IfOk result (λ b. b ≡ find (λ c. is_idle c.state && is_wished seen.now c) subs.now) }
{
    let Some((first, rest)) = subs.split_first() else {
        return Ok(None);
    };
    if is_to_connect(alloc, seen, *first)? {
        Ok(Some(*first))
    } else {
        first_to_connect(alloc, seen, rest)
    }
}

/// An IDLE subchannel that a policy wishes connects.
pub fn next_connected(alloc: Global, seen: &Seen) -> Result<Option<Action>, NoMemory>
    ensures { IfOk result (λ a. a ≡ next_connected seen.now) }
{
    match first_to_connect(alloc, seen, seen.subs.as_slice())? {
        Some(sub) => Ok(Some(Action::SubchannelConnects { sub: sub.number })),
        None => Ok(None),
    }
}

fn dial_wait(sub: Subchannel, seen: &Seen) -> Result<u64, NoMemory>
    ensures value { IfOk result (λ n. n ≡ dial_wait sub seen.now) }
    ensures within { IfOk result (λ n. n ≤ 144 * 10 ^ 9) }
{
    let dial = sub.dials.checked_add(1).ok_or(NoMemory)?;
    let word = if sub.dials == 0 { 0 } else { next_word(seen) };
    Ok(next_connect_wait(dial, word))
}

fn dial_action(seen: &Seen, sub: Subchannel) -> Result<Action, NoMemory>
    ensures { IfOk result (λ a. a ≡ dial_action seen.now sub) }
{
    let wait = dial_wait(sub, seen)?;
    let moment = now(seen).nanos();
    Ok(Action::DialTaken {
        sub: sub.number,
        again: moment + wait,
        until: moment + wait.max(LEAST_CONNECT),
    })
}

/// No dial is given up before 20 s (gRPC, "Connection Backoff Protocol": MIN_CONNECT_TIMEOUT).
const LEAST_CONNECT: u64 = 20_000_000_000;

fn first_dialable(subs: &[Subchannel]) -> Option<Subchannel>
    ensures { result ≡ find is_dialable subs.now }
{
    subs.iter().copied().find(|sub| is_dialable(*sub))
}

/// The dial that is taken, or the answer that there is none.
pub fn take_dial(seen: &Seen) -> Result<Action, NoMemory>
    ensures { IfOk result (λ a. a ≡ take_dial seen.now) }
{
    match first_dialable(seen.subs.as_slice()) {
        Some(sub) => dial_action(seen, sub),
        None => Ok(Action::EventAnswered {
            reply: Reply::NotYet,
        }),
    }
}
