// When the next hedged attempt of a call is due.
ghost use Rattle.std.specs.Prelude.{◌≡◌, ◌≤◌, IfSome, if◌then◌else◌, Option, Some};
ghost use Rattle.grpc_base.specs.Limits.{moment_limit};
ghost use Rattle.hedge_core.specs.DueMoments.{ended_state, forced_by, is_over, next_due, next_of, stops};

use attempt_ledger::{Next, RowEnd};
use grpc_base::{HedgePolicy, Pushback};

/// What a hedged call knows of its attempts.
#[derive(Clone, Copy, Debug, PartialEq, Eq)]
pub struct HedgeState {
    /// How many attempts were made; a transparent retry is none.
    pub sent: u32,
    /// The moment at which the newest of them was placed, if it was, in nanoseconds.
    pub last_placed: Option<u64>,
    /// The moment that an end forced since the newest was made, if any, in nanoseconds.
    pub forced: Option<u64>,
    /// Whether nothing is due any more: the server forbade it, the tokens did not suffice, or the call is committed or ended.
    pub stopped: bool,
    /// How many attempts are outstanding or wait for a pick.
    pub outstanding: u32,
}

/// The moment at which the next attempt is due, in nanoseconds (gRFC A6, "Hedging Policy"); None before the first attempt, which
/// is due as the call gets its configuration.
pub fn due_next(policy: &HedgePolicy, state: &HedgeState) -> Option<u64>
    requires { IfSome state.now.last_placed (λ placed. placed ≤ moment_limit) }
    ensures { result ≡ next_due policy.now state.now }
{
    if is_over(policy, state) {
        return None;
    }
    if let Some(forced) = state.forced {
        return Some(forced);
    }
    match state.last_placed {
        Some(placed) => Some(placed + policy.delay.nanos()),
        None => None,
    }
}

fn is_over(policy: &HedgePolicy, state: &HedgeState) -> bool
    ensures { result ≡ is_over policy.now state.now }
{
    state.stopped || state.sent == 0 || policy.max <= state.sent
}

/// What follows an attempt's end that counts, in a call that wasn't committed to it before: the next attempt at its due moment in
/// nanoseconds, or Final where none is due. The state is then that after the end, so that of several ends before one attempt is
/// made only the last one forces it. `above` says whether more than half of the tokens are left after this end.
///
/// The call is committed to this attempt, and ends, where the code is none of the policy's, and where the answer is Final and no
/// attempt is outstanding any more. It takes no memory.
pub fn after_end(policy: &HedgePolicy, state: &mut HedgeState, ended: &RowEnd, above: bool) -> Next
    requires sent { 1 ≤ state.old.sent }
    requires outstanding { 1 ≤ state.old.outstanding }
    ensures state { state.new ≡ ended_state policy.now state.old ended.now above }
    ensures next { result ≡ next_of (next_due policy.now (ended_state policy.now state.old ended.now above)) }
{
    state.outstanding -= 1;
    if stops(policy, ended, above) {
        state.stopped = true;
    }
    if !policy.codes.has(ended.code) {
        return Next::Final;
    }
    let due = forced_by(ended);
    state.forced = Some(due);
    if is_over(policy, state) {
        Next::Final
    } else {
        Next::Again { due }
    }
}

fn stops(policy: &HedgePolicy, ended: &RowEnd, above: bool) -> bool
    ensures { result ≡ stops policy.now ended.now above }
{
    if !policy.codes.has(ended.code) {
        return true;
    }
    match ended.pushback {
        Pushback::None => !above,
        Pushback::After(_) => false,
        Pushback::Stop => true,
    }
}

/// The moment of the attempt that an end forces.
fn forced_by(ended: &RowEnd) -> u64
    ensures { result ≡ forced_by ended.now }
{
    match ended.pushback {
        Pushback::After(millis) => ended.moment.nanos() + u64::from(millis) * NANOS_OF_MILLI,
        Pushback::None | Pushback::Stop => ended.moment.nanos(),
    }
}

const NANOS_OF_MILLI: u64 = 1_000_000;
