// All that a live channel needs of its environment, in one value.
ghost use Rattle.std.specs.Prelude.{◌≡◌, ◌∷◌, [], ℕ, List, Option, None, length, map};
ghost use Rattle.rand_core.specs.Pcg32Seed.{pcg32_seed};
ghost use Rattle.rand_pcg.specs.Pcg.{pcg64_of_seed};
ghost use Rattle.gate_io.specs.Links.{untold};
ghost use Rattle.gate_io.specs.MemoryLinks.{held_by};

use crate::lately::Lately;
use crate::sleepers::Sleeper;
use crate::{Clock, Dialer, Draws, ListClock, MemDialer, PcgDraws, StdClock, TcpDialer};
use grpc_base::NoMemory;
use std::alloc::Global;
use std::marker::Model;
use std::net::{Net, TcpStream};
use std::sync::{Arc, Mutex};
use std::time;

/// How many dialers a world over TCP has.
const DIALERS: usize = 4;

/// A clock, random words and dialers.
pub trait World: Drop {
    type Clock: Clock;

    type Draws: Draws;

    type Dialer: Dialer;

    /// Of each dialer in turn, the bytes that each link which it is to open will have left, where it says them.
    ghost held: { Self → List (Option (List (List ℕ))) };

    /// The parts of the world; the random words are those of this seed.
    fn parts(self, seed: u64) -> (Self::Clock, Self::Draws, Vec<Self::Dialer>)
        ensures held { map Self.Dialer.Dialer.coming result.2.items ≡ held self };
}

/// A world in memory.
#[derive(Drop)]
pub struct MemWorld {
    clock: ListClock,
    dialers: Vec<MemDialer>,
}

impl Model for MemWorld {
    ghost use Rattle.std.specs.Prelude.{ℕ, List};
    ghost use Rattle.gate_io.specs.Memory.{LinksSeen, WorldSeen};
    ghost use Rattle.gate_io.specs.declared.memory_dialer.MemLink.{MemLink};

    ghost Value = { WorldSeen (LinksSeen MemLink) };

    ghost view = { λ w. record { clock = w.clock; dialers = w.dialers.items } };
}

impl MemWorld {
    /// A world of this clock and these dialers.
    pub fn new(clock: ListClock, dialers: Vec<MemDialer>) -> MemWorld
        ensures { result ≡ record { clock = clock; dialers = dialers.items } }
    {
        MemWorld { clock, dialers }
    }
}

impl World for MemWorld {
    type Clock = ListClock;

    type Draws = PcgDraws;

    type Dialer = MemDialer;

    ghost held = { λ w. held_by w.dialers };

    fn parts(self, seed: u64) -> (ListClock, PcgDraws, Vec<MemDialer>)
        ensures held { held_by result.2.items ≡ held_by self.dialers }
        ensures clock { result.0 ≡ self.clock }
        ensures draws { result.1 ≡ pcg64_of_seed (pcg32_seed 32 seed) }
        ensures dialers { result.2.items ≡ self.dialers }
    {
        let MemWorld { clock, dialers } = self;
        (clock, PcgDraws::new(seed), dialers)
    }
}

/// The real world: the system's clock, and four dialers over TCP.
#[derive(Drop)]
pub struct TcpWorld<R> {
    clock: StdClock<R>,
    dialers: Vec<TcpDialer<R>>,
    ghost four: { length dialers.items ≡ 4 },
}

impl<R: Net<Stream = TcpStream> + time::Clock + Copy + Drop> TcpWorld<R> {
    /// The world of this runtime.
    pub fn new(rt: R, alloc: Global) -> Result<TcpWorld<R>, NoMemory> {
        let lately = Arc::new(alloc, Mutex::new(Lately::new(alloc)))?;
        let mut sleepers = Vec::new(alloc);
        let mut dialers = Vec::new(alloc);
        while dialers.len() < DIALERS {
            let sleeper = Arc::new(alloc, Sleeper::new())?;
            sleepers.push(sleeper.clone()?)?;
            dialers.push(TcpDialer::beside(rt, alloc, lately.clone()?, sleeper))?;
        }
        Ok(TcpWorld {
            clock: StdClock::beside(rt, sleepers),
            dialers,
        })
    }
}

impl<R: Net<Stream = TcpStream> + time::Clock + Copy + Send + Sync + Drop> World for TcpWorld<R> {
    type Clock = StdClock<R>;

    type Draws = PcgDraws;

    type Dialer = TcpDialer<R>;

    ghost held = { λ _. None ∷ None ∷ None ∷ None ∷ [] };

    fn parts(self, seed: u64) -> (StdClock<R>, PcgDraws, Vec<TcpDialer<R>>)
        ensures held { map (λ d. untold d) result.2.items ≡ None ∷ None ∷ None ∷ None ∷ [] }
        ensures draws { result.1 ≡ pcg64_of_seed (pcg32_seed 32 seed) }
        ensures four { length result.2.items ≡ 4 }
    {
        let TcpWorld { clock, dialers } = self;
        (clock, PcgDraws::new(seed), dialers)
    }
}
