// The stamps of calls.
ghost use Rattle.std.specs.Prelude.{◌≡◌, ◌<◌, ◌≤◌, ◌++◌, ◌∷◌, ◌^◌, ◌-◌, [], length, IfOk, OnOk, OnErr};
ghost use Rattle.ledger_stamps.specs.Steps.{begun_call, changed, changed_at, configured_call, ended_call, noted_call};

use crate::place::index_of;
use attempt_ledger::{CallEnd, CallSeen};
use grpc_base::{Items, NoMemory};
use std::alloc::Global;
use std::mem;

/// Adds a call that began in this entry, and reports its number. Past 4,294,967,295 calls the answer is that of no memory. Where it
/// is, the calls are as before.
pub fn add_call(alloc: Global, calls: &mut Items<CallSeen>, entry: u64) -> Result<u32, NoMemory>
    ensures number { IfOk result (λ number. number ≡ length calls.new) }
    ensures ok { OnOk result (calls.new ≡ calls.old ++ begun_call entry ∷ []) }
    ensures err { OnErr result (calls.new ≡ calls.old) }
{
    let before = calls.len();
    if before >= u32::MAX as usize {
        return Err(NoMemory);
    }
    calls.push(CallSeen {
        begun: entry,
        configured: None,
        made: Items::new(alloc),
        end: None,
    })?;
    Ok(before as u32 + 1)
}

/// The call got its configuration in this entry.
pub fn configure_call(alloc: Global, calls: &mut Items<CallSeen>, call: u32, entry: u64)
    ensures { calls.new ≡ changed_at (configured_call entry) calls.old call }
{
    let mut list = mem::replace(calls, Items::new(alloc)).into_vec();
    if let Some(index) = index_of(u64::from(call), list.len()) {
        configured_at(&mut list, index, entry);
    }
    *calls = Items::of_vec(list);
}

/// A row of the call was made in this entry.
pub fn note_made(
    alloc: Global,
    calls: &mut Items<CallSeen>,
    call: u32,
    entry: u64,
) -> Result<(), NoMemory>
    ensures ok { OnOk result (calls.new ≡ changed_at (noted_call entry) calls.old call) }
    ensures err { OnErr result (calls.new ≡ calls.old) }
{
    let mut list = mem::replace(calls, Items::new(alloc)).into_vec();
    let answer = note_in(&mut list, call, entry);
    *calls = Items::of_vec(list);
    answer
}

/// The call ended.
pub fn end_call(alloc: Global, calls: &mut Items<CallSeen>, call: u32, end: CallEnd)
    ensures { calls.new ≡ changed_at (ended_call end) calls.old call }
{
    let mut list = mem::replace(calls, Items::new(alloc)).into_vec();
    if let Some(index) = index_of(u64::from(call), list.len()) {
        end_at(&mut list, index, end);
    }
    *calls = Items::of_vec(list);
}

fn note_in(calls: &mut Vec<CallSeen>, call: u32, entry: u64) -> Result<(), NoMemory>
    ensures ok { OnOk result (calls.new.items ≡ changed_at (noted_call entry) calls.old.items call) }
    ensures err { OnErr result (calls.new.items ≡ calls.old.items) }
{
    match index_of(u64::from(call), calls.len()) {
        Some(index) => note_at(calls, index, entry),
        None => Ok(()),
    }
}

fn note_at(calls: &mut Vec<CallSeen>, index: usize, entry: u64) -> Result<(), NoMemory>
    requires { index < length calls.old.items }
    ensures ok { OnOk result (calls.new.items ≡ changed (noted_call entry) calls.old.items index) }
    ensures err { OnErr result (calls.new.items ≡ calls.old.items) }
{
    let chosen = &mut calls[index];
    note_call(chosen, entry)
}

fn note_call(call: &mut CallSeen, entry: u64) -> Result<(), NoMemory>
    ensures ok { OnOk result (call.new ≡ noted_call entry call.old) }
    ensures err { OnErr result (call.new ≡ call.old) }
{
    call.made.push(entry)
}

fn configured_at(calls: &mut Vec<CallSeen>, index: usize, entry: u64)
    requires { index < length calls.old.items }
    ensures { calls.new.items ≡ changed (configured_call entry) calls.old.items index }
{
    let chosen = &mut calls[index];
    stamp_configured(chosen, entry);
}

fn stamp_configured(call: &mut CallSeen, entry: u64)
    ensures { call.new ≡ configured_call entry call.old }
{
    if call.configured.is_none() {
        call.configured = Some(entry);
    }
}

fn end_at(calls: &mut Vec<CallSeen>, index: usize, end: CallEnd)
    requires { index < length calls.old.items }
    ensures { calls.new.items ≡ changed (ended_call end) calls.old.items index }
{
    let chosen = &mut calls[index];
    stamp_end(chosen, end);
}

fn stamp_end(call: &mut CallSeen, end: CallEnd)
    ensures { call.new ≡ ended_call end call.old }
{
    if call.end.is_none() {
        call.end = Some(end);
    }
}
