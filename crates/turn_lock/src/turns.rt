// The calls on a lock.
ghost use Rattle.std.specs.Prelude.{◌≡◌, ℕ, ◌+◌, ◌-◌, ◌*◌, ◌<◌, ◌≤◌, true, false, List, [], ◌∷◌, length, Some, IfOk, IfErr};
ghost use Rattle.turn_lock.specs.History.{StartsWith, places, merged, Owns};
ghost use Rattle.turn_lock.specs.Rule.{RunsTurn, first_view};
ghost use Rattle.turn_lock.specs.Turn.{FoundHolder, Sees, TakesTurn};

use crate::chronicle::{Chronicle, Job};
use crate::lock::{Busy, Front, Held, TurnLock};
use crate::rule::{Claim, Cut, Glue, InTurns, Look, Number, Publish, Release, View};
use crate::seat::Seat;
use atomic_table::{Shared, Table};
use grpc_base::NoMemory;
use std::alloc::Global;
use std::hint::spin_loop;
use std::snapshot::Snapshot;
use std::sync::Wait;
use std::sync::atomic::AtomicU64;
use std::time::Duration;

// The words of the table.
const FRONT: usize = 0;

const HOLDER: usize = 1;

const NEXT: usize = 2;

// The holder's word while the turn is free.
const NOBODY: u64 = 0;

// The slot that has the state.
const STATE: usize = 0;

// A mark is below this, and the `front` is the count times it and the mark.
const MARKS: u64 = 8;

// So many tries for a turn in a row come at once one after another, some ten microseconds in all: most turns are shorter.
const SPINS: u64 = 100;

// How many microseconds lie between further tries. Who sleeps is preferred when it wakes, where one that yields goes after all other
// programs of a busy machine.
const NAP: u64 = 20;

// What lies between two tries for a turn, after so many tries.
fn wait_a_while<W: Wait>(rt: &W, tries: u64) {
    if tries < SPINS {
        spin_loop();
    } else {
        AtomicU64::new(0).park_timeout(rt, 0, Duration::from_micros(NAP));
    }
}

// The `front` of a state's history.
fn front_of<S: Chronicle>(state: &S) -> u64
    ensures front { result ≡ 8 * length (S.entries state.now) + S.mark_of (S.entries state.now) }
    ensures small { S.mark_of (S.entries state.now) < 8 }
{
    state.count() * MARKS + u64::from(state.mark())
}

// The table over a state, and its first handle.
fn lay<S: Chronicle>(
    alloc: Global,
    state: S,
) -> Result<
    (
        Table<Option<S>, View<S::Entry>, Snapshot<S>, InTurns<S>, Global>,
        atomic_table::Seat<Option<S>, View<S::Entry>>,
    ),
    NoMemory,
>
    ensures { IfOk result (λ r. (r.0.shared.table_id.words ≡ 3) × (r.0.shared.table_id.slots ≡ 1) × (r.1.table_id ≡ r.0.shared.table_id) × (S.origin r.0.shared.key.value ≡ S.origin state) × (r.1.me ≡ (first_view (S.origin state) (S.entries state), []))) }
{
    let opening = front_of(&state);
    let about = Snapshot::of(&state);
    let mut slots = Vec::new(alloc);
    slots.push(Some(state))?;
    let Ok((table, inner)) = Table::new(alloc, &[opening, NOBODY, 1], slots, &about) else {
        return Err(NoMemory);
    };
    Ok((table, inner))
}

// Draws a handle's number, which is not 0.
fn draw_number<S: Chronicle>(
    shared: &Shared<Option<S>, View<S::Entry>, Snapshot<S>, InTurns<S>>,
    inner: &mut atomic_table::Seat<Option<S>, View<S::Entry>>,
) -> u64
    requires table { (inner.old.table_id ≡ shared.now.table_id) × (shared.now.table_id.words ≡ 3) }
    requires waits { inner.old.me.0.turn ≡ false }
    ensures number { 0 < result }
    ensures kept { (inner.new.table_id ≡ inner.old.table_id) × (inner.new.me ≡ (record inner.old.me.0 { number = result }, inner.old.me.1)) }
{
    let found = shared.fetch_add::<Number>(inner, NEXT, 1);
    if found == 0 { 1 } else { found }
}

// Runs a job in a turn that was won: on the state in hand, whose new entries are published before it is given back.
fn run_turn<S: Chronicle, J: Job<S>>(
    shared: &Shared<Option<S>, View<S::Entry>, Snapshot<S>, InTurns<S>>,
    inner: &mut atomic_table::Seat<Option<S>, View<S::Entry>>,
    job: &mut J,
) -> J::Answer
    requires table { (inner.old.table_id ≡ shared.now.table_id) × (shared.now.table_id.words ≡ 3) × (shared.now.table_id.slots ≡ 1) }
    requires won { (inner.old.me.0.turn ≡ true) × (0 < inner.old.me.0.parts) }
    requires state { (state : S) × (inner.old.me.1 ≡ (0, Some state) ∷ []) × (S.entries state ≡ inner.old.me.0.seen) × (S.origin state ≡ inner.old.me.0.origin) }
    ensures table { inner.new.table_id ≡ inner.old.table_id }
    ensures turn { RunsTurn S.entries S.origin J.runs job.old inner.old.me result job.new inner.new.me }
{
    let mut state = shared.exchange(inner, STATE, None).unwrap();
    let answer = job.run(&mut state);
    let front = front_of(&state);
    let _ = shared.exchange(inner, STATE, Some(state));
    shared.store::<Publish>(inner, FRONT, front);
    shared.store::<Release>(inner, HOLDER, NOBODY);
    answer
}

impl<S: Chronicle> TurnLock<S> {
    /// A lock over a state, and its first handle, whose own entries are all that the state has. Where memory is
    /// wanting, the state is dropped.
    pub fn new(alloc: Global, state: S) -> Result<(TurnLock<S>, Seat<S>), NoMemory>
        ensures seat { IfOk result (λ r. r.1 ≡ record { lock = r.0; seen = S.entries state; own = places 0 (S.entries state); parts = 4294967296; found = [] }) }
        ensures origin { IfOk result (λ r. r.0.origin ≡ S.origin state) }
    {
        let (table, mut inner) = lay(alloc, state)?;
        let number = draw_number(&table.shared, &mut inner);
        Ok((TurnLock { table }, Seat { inner, number }))
    }

    /// A new handle, which has seen as much and has no entries. It gets one of the parts, of which there are two at least.
    pub fn split_seat(&self, seat: &mut Seat<S>) -> Seat<S>
        requires lock { seat.old.lock ≡ self.now }
        requires parts { 2 ≤ seat.old.parts }
        ensures kept { seat.new ≡ record seat.old { parts = seat.old.parts - 1 } }
        ensures given { result ≡ record { lock = self.now; seen = seat.old.seen; own = []; parts = 1; found = [] } }
    {
        let mut inner = self.table.shared.split_seat::<Cut>(&mut seat.inner);
        let number = draw_number(&self.table.shared, &mut inner);
        Seat { inner, number }
    }

    /// Takes in another handle: its parts, its own entries, and what it had seen. Then it looks at the `front`.
    pub fn join_seat(&self, seat: &mut Seat<S>, other: Seat<S>)
        requires lock { (seat.old.lock ≡ self.now) × (other.lock ≡ self.now) }
        ensures joined { seat.new ≡ record seat.old { seen = seat.new.seen; own = merged seat.old.own other.own; parts = seat.old.parts + other.parts } }
        ensures sees { Sees seat.old seat.new }
        ensures other { StartsWith seat.new.seen other.seen }
    {
        let Seat { inner, number: _ } = other;
        self.table.shared.join_seat::<Glue>(&mut seat.inner, inner);
        self.table.shared.load::<Look>(&mut seat.inner, FRONT);
    }

    /// The `front` of the history, which is then seen. Waits for nobody.
    pub fn front(&self, seat: &mut Seat<S>) -> Front
        requires lock { seat.old.lock ≡ self.now }
        ensures front { (result.count ≡ length seat.new.seen) × (result.mark ≡ S.mark_of seat.new.seen) }
        ensures sees { Sees seat.old seat.new }
        ensures kept { seat.new ≡ record seat.old { seen = seat.new.seen } }
    {
        let word = self.table.shared.load::<Look>(&mut seat.inner, FRONT);
        Front {
            count: word / MARKS,
            mark: (word % MARKS) as u8,
        }
    }

    /// Runs the job in one turn, if the turn is free. Waits for nobody. Otherwise it says who has the turn, and the
    /// job is as before.
    pub fn try_turn<J: Job<S>>(&self, seat: &mut Seat<S>, job: &mut J) -> Result<J::Answer, Busy>
        requires lock { seat.old.lock ≡ self.now }
        ensures done { IfOk result (λ answer. TakesTurn S.entries S.origin J.runs job.old seat.old answer job.new seat.new) }
        ensures busy { IfErr result (λ b. FoundHolder seat.old b.holder seat.new × (job.new ≡ job.old)) }
        ensures lock { seat.new.lock ≡ seat.old.lock }
    {
        let shared = &self.table.shared;
        let number = seat.number;
        let holder = shared.compare_exchange::<Claim>(&mut seat.inner, HOLDER, NOBODY, number);
        if holder != NOBODY {
            return Err(Busy { holder });
        }
        Ok(run_turn(shared, &mut seat.inner, job))
    }

    /// Runs the job in one turn. May wait for others.
    pub fn turn<W: Wait, J: Job<S>>(&self, rt: &W, seat: &mut Seat<S>, job: &mut J) -> J::Answer
        requires lock { seat.old.lock ≡ self.now }
        ensures turn { TakesTurn S.entries S.origin J.runs job.old (record seat.old { found = seat.new.found }) result job.new seat.new }
        ensures found { StartsWith seat.new.found seat.old.found }
        ensures lock { seat.new.lock ≡ seat.old.lock }
    {
        let mut tries = 0;
        for _ in rt.forever() {
            if let Ok(answer) = self.try_turn(seat, job) {
                return answer;
            }
            wait_a_while(rt, tries);
            tries = tries.saturating_add(1);
        }
        unreachable!()
    }

    /// Makes one claim, and hands out the state that it won. Otherwise lock and handle come back.
    pub fn close(self, seat: Seat<S>) -> Result<S, Held<S>>
        requires lock { seat.lock ≡ self }
        ensures closed { IfOk result (λ state. StartsWith (S.entries state) seat.seen × Owns seat.parts seat.own (S.entries state) × (S.origin state ≡ self.origin)) }
        ensures held { IfErr result (λ h. (h.lock ≡ self) × FoundHolder seat h.holder h.seat) }
    {
        let Seat { mut inner, number } = seat;
        let holder = self
            .table
            .shared
            .compare_exchange::<Claim>(&mut inner, HOLDER, NOBODY, number);
        if holder != NOBODY {
            return Err(Held {
                holder,
                lock: self,
                seat: Seat { inner, number },
            });
        }
        Ok(self.table.shared.exchange(&mut inner, STATE, None).unwrap())
    }
}
