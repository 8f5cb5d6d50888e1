// Two handles at one history, a claim from inside a turn, and threads that append.
ghost use Rattle.std.specs.Prelude.{◌≡◌, ◌%◌, ◌<◌, ◌≤◌, ◌++◌, [], ◌∷◌, length, vec_len, MatchBool, IfOk};

use std::alloc::{AllocError, Global};
use std::sync::Wait;
use std::test::Fail;
use std::thread::{available_parallelism, for_each_mut};
use turn_lock::{Busy, Chronicle, Front, Job, Seat, TurnLock};

const MOST: usize = 1_000_000;

/// A history of numbers, at most `MOST`.
#[derive(Drop)]
struct Log {
    entries: Vec<u64>,
    ghost small: { vec_len entries ≤ 1000000 },
}

impl Chronicle for Log {
    type Entry = u64;

    ghost entries = { λ log. log.entries.items };

    ghost mark_of = { λ entries. length entries % 8 };

    ghost origin = { λ log. [] };

    fn count(&self) -> u64 {
        self.entries.len() as u64
    }

    fn mark(&self) -> u8 {
        (self.entries.len() % 8) as u8
    }
}

/// Appends one number, and says whether it did.
#[derive(Drop)]
struct Append {
    entry: u64,
}

impl Job<Log> for Append {
    type Answer = bool;

    ghost runs = { λ job state done job_after after. MatchBool done
        (after.entries.items ≡ state.entries.items ++ job.entry ∷ [])
        (after.entries.items ≡ state.entries.items) };

    fn run(&mut self, state: &mut Log) -> bool {
        state.entries.len() < MOST && state.entries.push(self.entry).is_ok()
    }
}

fn opened(alloc: Global) -> Log {
    Log {
        entries: Vec::new(alloc),
    }
}

#[test]
fn two_handles_append_in_the_order_of_their_turns(rt: HostRuntime) -> Result<(), Fail> {
    let (lock, mut first) = TurnLock::new(rt.alloc(), opened(rt.alloc()))?;
    assert_eq!(rt; lock.front(&mut first), Front { count: 0, mark: 0 });
    let mut second = lock.split_seat(&mut first);
    assert_eq!(rt;
        lock.try_turn(&mut second, &mut Append { entry: 7 }),
        Ok(true)
    );
    assert!(rt; lock.turn(&rt, &mut first, &mut Append { entry: 5 }));
    assert_eq!(rt; lock.front(&mut second), Front { count: 2, mark: 2 });
    lock.join_seat(&mut first, second);
    let Ok(log) = lock.close(first) else {
        panic!(rt; "nobody has the turn")
    };
    assert_eq!(rt; log.entries.as_slice(), [7, 5].as_slice());
    Ok(())
}

/// Tries a turn of its own inside another handle's, and keeps the holder that it found.
#[derive(Drop)]
struct Inside<'a> {
    lock: &'a TurnLock<Log>,
    seat: Seat<Log>,
    found: u64,
    ghost own: { seat.lock ≡ lock.now },
}

impl<'a> Job<Log> for Inside<'a> {
    type Answer = bool;

    ghost runs = { λ job state busy job_after after. after.entries.items ≡ state.entries.items };

    fn run(&mut self, _state: &mut Log) -> bool {
        match self.lock.try_turn(&mut self.seat, &mut Append { entry: 1 }) {
            Ok(_) => false,
            Err(Busy { holder }) => {
                self.found = holder;
                true
            }
        }
    }
}

#[test]
fn a_claim_inside_a_turn_finds_its_holder(rt: HostRuntime) -> Result<(), Fail> {
    let (lock, mut first) = TurnLock::new(rt.alloc(), opened(rt.alloc()))?;
    let mut second = lock.split_seat(&mut first);
    let third = lock.split_seat(&mut first);
    let mut inside = Inside {
        lock: &lock,
        seat: third,
        found: 0,
    };
    assert_eq!(rt; lock.try_turn(&mut first, &mut inside), Ok(true));
    assert_eq!(rt; inside.found, 1);
    assert!(rt; lock.turn(&rt, &mut second, &mut inside));
    assert_eq!(rt; inside.found, 2);
    assert_eq!(rt; lock.front(&mut first).count, 0);
    Ok(())
}

/// A thread's handle, and how many numbers it appends.
#[derive(Drop)]
struct Worker<'a, W> {
    rt: &'a W,
    lock: &'a TurnLock<Log>,
    seat: Seat<Log>,
    share: u64,
    ghost own: { seat.lock ≡ lock.now },
}

// Appends the numbers below the worker's share.
fn append_share<W: Wait>(worker: &mut Worker<'_, W>) {
    for entry in 0..worker.share {
        let _ = worker
            .lock
            .turn(worker.rt, &mut worker.seat, &mut Append { entry });
    }
}

/// What the threads append in all.
const TOTAL: u64 = 100_000;

// A worker a thread, each with a handle of its own. Their shares are `TOTAL` together.
fn hire<'a, W: Wait>(
    rt: &'a W,
    alloc: Global,
    lock: &'a TurnLock<Log>,
    seat: &mut Seat<Log>,
    threads: u64,
) -> Result<Vec<Worker<'a, W>>, AllocError>
    requires { (seat.old.lock ≡ lock.now) × (seat.old.parts ≡ 4294967296) × (threads ≤ 1024) × (0 < threads) }
    ensures { seat.new.lock ≡ seat.old.lock }
{
    let mut workers = Vec::new(alloc);
    for i in 0..threads {
        let seat = lock.split_seat(seat);
        let more = u64::from(i < TOTAL % threads);
        workers.push(Worker {
            rt,
            lock,
            seat,
            share: (TOTAL / threads).saturating_add(more),
        })?;
    }
    Ok(workers)
}

#[test]
fn threads_that_append_lose_no_entry(rt: HostRuntime) -> Result<(), Fail> {
    let threads = available_parallelism(&rt).map_or(1, |n| n.get()).min(64);
    let (lock, mut seat) = TurnLock::new(rt.alloc(), opened(rt.alloc()))?;
    let mut workers = hire(&rt, rt.alloc(), &lock, &mut seat, threads as u64)?;
    for_each_mut(
        &rt,
        workers.as_mut_slice(),
        threads,
        &|_, worker| append_share(worker),
    );
    drop(workers);
    let Ok(log) = lock.close(seat) else {
        panic!(rt; "nobody has the turn")
    };
    assert_eq!(rt; log.entries.len() as u64, TOTAL);
    // Each number below the least share came from every thread.
    let mut times = vec![in rt.alloc(); 0usize; TOTAL as usize / threads]?;
    for entry in log.entries.as_slice() {
        if let Some(n) = times.get_mut(*entry as usize) {
            *n = n.saturating_add(1);
        }
    }
    assert!(rt; times.iter().all(|n| *n == threads));
    Ok(())
}
