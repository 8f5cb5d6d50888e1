// The stamps of generations, and the pick requests.
ghost use Rattle.std.specs.Prelude.{◌≡◌, ◌<◌, ◌++◌, ◌∷◌, [], length, slice_get, Some, IfOk, OnOk, OnErr};
ghost use Rattle.ledger_stamps.specs.Steps.{activated_generation, changed, changed_at, new_generation, retired_generation};

use crate::place::{index_of, stamp};
use attempt_ledger::{Ask, Generation};
use grpc_base::{Items, Kind, NoMemory};

/// Adds a generation of this kind, and reports its number. Past 4,294,967,295 generations the answer is that of no memory. Where it
/// is, the generations are as before.
pub fn add_generation(generations: &mut Items<Generation>, kind: Kind) -> Result<u32, NoMemory>
    ensures number { IfOk result (λ number. number ≡ length generations.new) }
    ensures ok { OnOk result (generations.new ≡ generations.old ++ new_generation kind ∷ []) }
    ensures err { OnErr result (generations.new ≡ generations.old) }
{
    let before = generations.len();
    if before >= u32::MAX as usize {
        return Err(NoMemory);
    }
    generations.push(Generation {
        kind,
        activated: None,
        retired: None,
    })?;
    Ok(before as u32 + 1)
}

/// The generation became current in this entry.
pub fn activate(generations: &mut Items<Generation>, generation: u32, entry: u64)
    ensures { generations.new ≡ changed_at (activated_generation entry) generations.old generation }
{
    if let Some(index) = index_of(u64::from(generation), generations.len()) {
        activated_at(generations, index, entry);
    }
}

/// The generation was retired in this entry.
pub fn retire(generations: &mut Items<Generation>, generation: u32, entry: u64)
    ensures { generations.new ≡ changed_at (retired_generation entry) generations.old generation }
{
    if let Some(index) = index_of(u64::from(generation), generations.len()) {
        retired_at(generations, index, entry);
    }
}

/// Adds a pick request with its answer. On out of memory the list is as before.
pub fn add_ask(asks: &mut Items<Ask>, ask: Ask) -> Result<(), NoMemory>
    ensures ok { OnOk result (asks.new ≡ asks.old ++ ask ∷ []) }
    ensures err { OnErr result (asks.new ≡ asks.old) }
{
    asks.push(ask)
}

fn generation_at(generations: &Items<Generation>, index: usize) -> Option<Generation>
    ensures { result ≡ slice_get generations.now index }
{
    match generations.get(index) {
        Some(seen) => Some(*seen),
        None => None,
    }
}

#[tactic(auto, using(crate::proofs::Places::past_none))]
fn activated_at(generations: &mut Items<Generation>, index: usize, entry: u64)
    ensures { generations.new ≡ changed (activated_generation entry) generations.old index }
{
    match generation_at(generations, index) {
        Some(seen) => put_activated(generations, index, seen, entry),
        None => (),
    }
}

fn put_activated(generations: &mut Items<Generation>, index: usize, seen: Generation, entry: u64)
    requires { slice_get generations.old index ≡ Some seen }
    ensures { generations.new ≡ changed (activated_generation entry) generations.old index }
{
    let after = stamp_activated(seen, entry);
    generations.put(index, after);
}

#[tactic(auto, using(crate::proofs::Places::past_none))]
fn retired_at(generations: &mut Items<Generation>, index: usize, entry: u64)
    ensures { generations.new ≡ changed (retired_generation entry) generations.old index }
{
    match generation_at(generations, index) {
        Some(seen) => put_retired(generations, index, seen, entry),
        None => (),
    }
}

fn put_retired(generations: &mut Items<Generation>, index: usize, seen: Generation, entry: u64)
    requires { slice_get generations.old index ≡ Some seen }
    ensures { generations.new ≡ changed (retired_generation entry) generations.old index }
{
    let after = stamp_retired(seen, entry);
    generations.put(index, after);
}

fn stamp_activated(generation: Generation, entry: u64) -> Generation
    ensures { result ≡ activated_generation entry generation }
{
    Generation {
        activated: stamp(generation.activated, entry),
        ..generation
    }
}

fn stamp_retired(generation: Generation, entry: u64) -> Generation
    ensures { result ≡ retired_generation entry generation }
{
    Generation {
        retired: stamp(generation.retired, entry),
        ..generation
    }
}
