// The stamps of the generations that a result, a take-over or a Shutdown changes.
ghost use Rattle.std.specs.Prelude.{◌≡◌, OnOk};
ghost use Rattle.channel_net.specs.Stamps as stamps;
ghost use Rattle.channel_net.specs.Steps.{begun_stamps};

use attempt_ledger::Generation;
use grpc_base::{Items, Kind, NoMemory};
use ledger_stamps::{activate, add_generation, retire};

/// The generation is retired in this entry.
pub fn retire_live(generations: &mut Items<Generation>, live: Option<(u32, Kind)>, entry: u64)
    ensures { generations.new ≡ stamps.retired_live entry live generations.old }
{
    if let Some((generation, _)) = live {
        retire(generations, generation, entry);
    }
}

/// The generation became current in this entry.
pub fn activate_live(generations: &mut Items<Generation>, live: Option<(u32, Kind)>, entry: u64)
    ensures { generations.new ≡ stamps.activated_live entry live generations.old }
{
    if let Some((generation, _)) = live {
        activate(generations, generation, entry);
    }
}

/// The pending generation is dropped in this entry, unless the result goes to it.
pub fn drop_pending(
    generations: &mut Items<Generation>,
    pending: Option<(u32, Kind)>,
    kept: u32,
    entry: u64,
)
    ensures { generations.new ≡ stamps.dropped entry kept pending generations.old }
{
    if let Some((generation, _)) = pending {
        if generation != kept {
            retire(generations, generation, entry);
        }
    }
}

/// A generation of this kind begins in this entry, as the current one or not.
pub fn begin_generation(
    generations: &mut Items<Generation>,
    kind: Kind,
    generation: u32,
    is_current: bool,
    entry: u64,
) -> Result<(), NoMemory>
    ensures { OnOk result (generations.new ≡ begun_stamps entry kind is_current generation generations.old) }
{
    let _number = add_generation(generations, kind)?;
    if is_current {
        activate(generations, generation, entry);
    }
    Ok(())
}

/// Whether a live generation has this number.
pub fn is_numbered(live: Option<(u32, Kind)>, generation: u32) -> bool
    ensures { result ≡ stamps.is_numbered generation live }
{
    match live {
        Some((number, _)) => number == generation,
        None => false,
    }
}
