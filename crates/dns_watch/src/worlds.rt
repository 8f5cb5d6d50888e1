// Worlds in which names can be looked up.
ghost use Rattle.std.specs.Prelude.{◌≡◌, ◌∷◌, [], None, length, map};
ghost use Rattle.rand_core.specs.Pcg32Seed.{pcg32_seed};
ghost use Rattle.rand_pcg.specs.Pcg.{pcg64_of_seed};
ghost use Rattle.gate_io.specs.Links.{untold};
ghost use Rattle.gate_io.specs.MemoryLinks.{held_by};

use crate::{Lookup, MemLookup, StdLookup};
use gate_io::{ListClock, MemDialer, MemWorld, PcgDraws, StdClock, TcpDialer, TcpWorld, World};
use grpc_base::NoMemory;
use std::alloc::Global;
use std::marker::Model;
use std::net::{Net, TcpStream};
use std::{mem, time};

/// A world in which names can be looked up.
pub trait NamedWorld: World {
    type Lookup: Lookup;

    /// What looks names up. What the dialers hold stays.
    fn lookup(&mut self) -> Self::Lookup
        ensures held { Self.World.held self.new ≡ Self.World.held self.old };
}

/// A world in memory with a lookup.
#[derive(Drop)]
pub struct MemNamedWorld {
    world: MemWorld,
    lookup: MemLookup,
    alloc: Global,
}

impl Model for MemNamedWorld {
    ghost use Rattle.gate_io.specs.Memory.{LinksSeen, WorldSeen};
    ghost use Rattle.gate_io.specs.declared.memory_dialer.MemLink.{MemLink};
    ghost use Rattle.dns_watch.specs.Memory.{LookupSeen, NamedSeen};

    ghost Value = { NamedSeen (WorldSeen (LinksSeen MemLink)) };

    ghost view = { λ w. record { world = w.world; lookup = w.lookup } };
}

impl MemNamedWorld {
    /// This world with this lookup.
    pub fn new(alloc: Global, world: MemWorld, lookup: MemLookup) -> MemNamedWorld
        ensures { result ≡ record { world = world; lookup = lookup } }
    {
        MemNamedWorld {
            world,
            lookup,
            alloc,
        }
    }
}

impl World for MemNamedWorld {
    type Clock = ListClock;

    type Draws = PcgDraws;

    type Dialer = MemDialer;

    ghost held = { λ w. held_by w.world.dialers };

    fn parts(self, seed: u64) -> (ListClock, PcgDraws, Vec<MemDialer>)
        ensures held { held_by result.2.items ≡ held_by self.world.dialers }
        ensures clock { result.0 ≡ self.world.clock }
        ensures draws { result.1 ≡ pcg64_of_seed (pcg32_seed 32 seed) }
        ensures dialers { result.2.items ≡ self.world.dialers }
    {
        let MemNamedWorld { world, .. } = self;
        world.parts(seed)
    }
}

impl NamedWorld for MemNamedWorld {
    type Lookup = MemLookup;

    /// The world's lookup. It is passed out once; a later one has no answers.
    fn lookup(&mut self) -> MemLookup
        ensures held { held_by self.new.world.dialers ≡ held_by self.old.world.dialers }
        ensures lookup { result ≡ self.old.lookup }
        ensures left { self.new.lookup.answers ≡ [] }
        ensures world { self.new.world ≡ self.old.world }
    {
        let spent = MemLookup::new(Vec::new(self.alloc), Vec::new(self.alloc));
        mem::replace(&mut self.lookup, spent)
    }
}

/// The real world, whose names the system's resolver looks up.
#[derive(Drop)]
pub struct TcpNamedWorld<R> {
    world: TcpWorld<R>,
    rt: R,
}

impl<R: Net<Stream = TcpStream> + time::Clock + Copy + Drop> TcpNamedWorld<R> {
    /// The world of this runtime.
    pub fn new(rt: R, alloc: Global) -> Result<TcpNamedWorld<R>, NoMemory> {
        let world = TcpWorld::new(rt, alloc)?;
        Ok(TcpNamedWorld { world, rt })
    }
}

impl<R: Net<Stream = TcpStream> + time::Clock + Copy + Send + Sync + Drop> World
    for TcpNamedWorld<R> {
    type Clock = StdClock<R>;

    type Draws = PcgDraws;

    type Dialer = TcpDialer<R>;

    ghost held = { λ _. None ∷ None ∷ None ∷ None ∷ [] };

    fn parts(self, seed: u64) -> (StdClock<R>, PcgDraws, Vec<TcpDialer<R>>)
        ensures held { map (λ d. untold d) result.2.items ≡ None ∷ None ∷ None ∷ None ∷ [] }
        ensures draws { result.1 ≡ pcg64_of_seed (pcg32_seed 32 seed) }
        ensures four { length result.2.items ≡ 4 }
    {
        let TcpNamedWorld { world, .. } = self;
        world.parts(seed)
    }
}

impl<R: Net<Stream = TcpStream> + time::Clock + Copy + Send + Sync + Drop> NamedWorld
    for TcpNamedWorld<R> {
    type Lookup = StdLookup<R>;

    fn lookup(&mut self) -> StdLookup<R> {
        StdLookup::new(self.rt)
    }
}
