// What the event of the entry that is being made carries.
ghost use Rattle.std.specs.Prelude.{◌≡◌, IfOk, Some, option_and_then};
ghost use Rattle.session_actions.specs.Policies.{addresses_in};
ghost use Rattle.session_actions.specs.Writing.{ping_of};
ghost use Rattle.session_actions.specs.declared.entry.OpenEntry.{OpenEntry};
ghost use Rattle.slow_changes.specs.Parts.{request_in};

use grpc_base::{Address, Event, Items, NoMemory, Request};
use session_actions::{OpenEntry, Seen, WireFrame};
use slow_link::ping_frame;
use std::alloc::Global;

/// The request of a call that begins.
fn request_in(event: &Event) -> Result<Option<Request>, NoMemory>
    ensures { IfOk result (λ r. r ≡ request_in event.now) }
{
    match event {
        Event::Begin { request } => Ok(Some(request.copy()?)),
        _ => Ok(None),
    }
}

/// The request that was posted.
pub fn posted_request(seen: &Seen) -> Result<Option<Request>, NoMemory>
    ensures { IfOk result (λ r. r ≡ option_and_then (λ o. request_in o.event) seen.now.current) }
{
    match &seen.current {
        Some(open) => request_in(&open.event),
        None => Ok(None),
    }
}

fn copy_of(alloc: Global, addresses: &[Address]) -> Result<Items<Address>, NoMemory>
    ensures { IfOk result (λ l. l ≡ addresses.now) }
{
    let copy = addresses.iter().copied().collect(alloc)?;
    Ok(Items::of_vec(copy))
}

/// The addresses of a result of the resolver.
fn addresses_in(alloc: Global, event: &Event) -> Result<Option<Items<Address>>, NoMemory>
    ensures { IfOk result (λ l. l ≡ addresses_in event.now) }
{
    match event {
        Event::Resolved {
            addresses,
            config: _,
        } => Ok(Some(copy_of(alloc, addresses.as_list().as_slice())?)),
        _ => Ok(None),
    }
}

/// The addresses that were posted.
pub fn posted_addresses(alloc: Global, seen: &Seen) -> Result<Option<Items<Address>>, NoMemory>
    ensures { IfOk result (λ l. l ≡ option_and_then (λ o. addresses_in o.event) seen.now.current) }
{
    match &seen.current {
        Some(open) => addresses_in(alloc, &open.event),
        None => Ok(None),
    }
}

/// The PING that the environment asks for.
fn ping_of(alloc: Global, event: &Event) -> Result<Vec<WireFrame>, NoMemory>
    ensures { IfOk result (λ v. v.items ≡ ping_of event.now) }
{
    let mut frames = Vec::new(alloc);
    if let Event::Ping { link: _, word } = event {
        frames.push(ping_frame(alloc, *word)?)?;
    }
    Ok(frames)
}

/// The PING that was posted.
pub fn posted_ping(alloc: Global, seen: &Seen) -> Result<Vec<WireFrame>, NoMemory>
    ensures { (o : OpenEntry) → seen.now.current ≡ Some o → IfOk result (λ v. v.items ≡ ping_of o.event) }
{
    match &seen.current {
        Some(open) => ping_of(alloc, &open.event),
        None => Ok(Vec::new(alloc)),
    }
}
