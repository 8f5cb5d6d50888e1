// The journal and the ledger of what has happened.
ghost use Rattle.std.specs.Prelude.{◌≡◌, IfOk, filter, map};
ghost use Rattle.session_actions.specs.Attempts.{is_of};
ghost use Rattle.session_actions.specs.Sessions.{call_seen, ledger_of, link_seen};
ghost use Rattle.slow_session.specs.Parts.{made_for};

use attempt_ledger::{CallSeen, Generation, Journal, Ledger, LinkSeen, Row};
use grpc_base::{Items, NoMemory};
use session_actions::{Attempt, Call, Link, PolicyUse, Seen};
use slow_attempts::is_of;
use slow_link::read_bytes;
use std::alloc::Global;

/// The journal and the ledger of a session.
#[derive(Debug, Drop)]
pub struct Report {
    pub journal: Journal,
    pub ledger: Ledger,
}

/// The entries in which the attempts of a call were made.
fn made_for(alloc: Global, call: &Call, attempts: &[Attempt]) -> Result<Vec<u64>, NoMemory>
    ensures { IfOk result (λ v. v.items ≡ made_for call.now attempts.now) }
{
    let made = attempts
        .iter()
        .filter(|attempt| is_of(call, attempt))
        .map(|attempt| attempt.made)
        .collect(alloc)?;
    Ok(made)
}

fn call_seen(alloc: Global, seen: &Seen, call: &Call) -> Result<CallSeen, NoMemory>
    ensures { IfOk result (λ c. c ≡ call_seen seen.now call.now) }
{
    let made = made_for(alloc, call, seen.attempts.as_slice())?;
    Ok(CallSeen {
        begun: call.begun,
        configured: call.configured,
        made: Items::of_vec(made),
        end: call.end,
    })
}

fn calls_seen(alloc: Global, seen: &Seen) -> Result<Vec<CallSeen>, NoMemory>
    ensures { IfOk result (λ v. v.items ≡ map (call_seen seen.now) seen.now.calls) }
{
    let mut calls = Vec::new(alloc);
    for call in seen.calls.as_slice() {
        calls.push(call_seen(alloc, seen, call)?)?;
    }
    Ok(calls)
}

fn link_seen(link: &Link) -> LinkSeen
    ensures { result ≡ link_seen link.now }
{
    LinkSeen {
        sub: link.sub,
        up: link.up,
        gone: link.gone,
        read: read_bytes(link),
    }
}

fn links_seen(alloc: Global, links: &[Link]) -> Result<Vec<LinkSeen>, NoMemory>
    ensures { IfOk result (λ v. v.items ≡ map link_seen links.now) }
{
    let mut seen = Vec::new(alloc);
    for link in links {
        seen.push(link_seen(link))?;
    }
    Ok(seen)
}

fn generations(alloc: Global, policies: &[PolicyUse]) -> Result<Vec<Generation>, NoMemory>
    ensures { IfOk result (λ v. v.items ≡ map (λ g. g.generation) policies.now) }
{
    let generations = policies
        .iter()
        .map(|policy| policy.generation)
        .collect(alloc)?;
    Ok(generations)
}

fn rows(alloc: Global, attempts: Vec<Attempt>) -> Result<Vec<Row>, NoMemory>
    ensures { IfOk result (λ v. v.items ≡ map (λ a. a.row) attempts.items) }
{
    let mut rows = Vec::new(alloc);
    let mut rest = attempts.into_iter();
    while let Some(attempt) = rest.next() {
        rows.push(attempt.row)?;
    }
    Ok(rows)
}

/// The journal and the ledger of what has happened.
pub fn report_of(alloc: Global, seen: Seen) -> Result<Report, NoMemory>
    ensures journal { IfOk result (λ r. r.journal.entries ≡ seen.entries) }
    ensures ledger { IfOk result (λ r. r.ledger ≡ ledger_of seen) }
{
    let calls = calls_seen(alloc, &seen)?;
    let links = links_seen(alloc, seen.links.as_slice())?;
    let generations = generations(alloc, seen.policies.as_slice())?;
    let entry = seen.entries.len() as u64;
    let Seen {
        entries,
        attempts,
        asks,
        ..
    } = seen;
    let rows = rows(alloc, attempts.into_vec())?;
    Ok(Report {
        journal: Journal { entries },
        ledger: Ledger {
            rows: Items::of_vec(rows),
            calls: Items::of_vec(calls),
            asks,
            generations: Items::of_vec(generations),
            links: Items::of_vec(links),
            entry,
        },
    })
}
