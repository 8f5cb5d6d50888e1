// The mode `live`, with the promise of its session.
ghost use Rattle.std.specs.Prelude.{◌≡◌, ◌⊎◌, map, true};
ghost use Rattle.gate_io.specs.Outside.{Rises};
ghost use Rattle.live_mode.specs.Live.{StopsInCalls, ReportsBadCall};
ghost use Rattle.channel_top.specs.Live.{EndsFullAsPromised, IsLivedAsPromised, IsPromisedLiveText};
ghost use Rattle.session_text.specs.Writing.{WritesAll, WritesPrefix, WritesSome};
ghost use Rattle.policy_rack.specs.Kinds.{are_ready};

use crate::promise::sessions_keep_the_promise;
use dns_watch::NamedWorld;
use gate_io::{Sink, Source};
use lb_policy::Balancer;
use live_mode::{LiveSettings, run_live};
use std::alloc::Global;
use std::sync::Wait;
use std::thread::Threads;

/// Runs the mode, as `run_live` does; the journal and the ledger that are reported keep the promise. It may never return.
pub fn run_as_promised<
    R: Threads + Wait + Sync,
    P: Balancer + Send,
    S: Source,
    K: Sink,
    W: NamedWorld,
>(
    rt: &R,
    alloc: Global,
    settings: LiveSettings,
    policies: Vec<P>,
    world: W,
    script: &mut S,
    report: &mut K,
) -> u8
    requires { are_ready (map P.seen policies.items) ≡ true }
    ensures done { result ≡ 0 → WritesAll (IsLivedAsPromised (map P.seen policies.items) (W.held world) (S.left script.old) (S.left script.new)) (K.taken report.old) (K.taken report.new) }
    ensures line { result ≡ 3 → WritesAll (ReportsBadCall (S.left script.old) (S.left script.new)) (K.taken report.old) (K.taken report.new) }
    ensures reading { result ≡ 4 → StopsInCalls (S.left script.old) (S.left script.new) (K.taken report.old) (K.taken report.new) (S.faults script.old) (S.faults script.new) }
    ensures writing { result ≡ 5 → Rises (K.faults report.old) (K.faults report.new) × WritesPrefix (IsPromisedLiveText (map P.seen policies.items) (W.held world) (S.left script.old) (S.left script.new)) (K.taken report.old) (K.taken report.new) }
    ensures memory { result ≡ 6 → WritesSome (IsPromisedLiveText (map P.seen policies.items) (W.held world) (S.left script.old) (S.left script.new)) (K.taken report.old) (K.taken report.new) }
    ensures full { result ≡ 7 → WritesAll (EndsFullAsPromised (map P.seen policies.items) (W.held world) (S.left script.old) (S.left script.new)) (K.taken report.old) (K.taken report.new) }
    ensures known { (result ≡ 0) ⊎ (result ≡ 3) ⊎ (result ≡ 4) ⊎ (result ≡ 5) ⊎ (result ≡ 6) ⊎ (result ≡ 7) }
{
    sessions_keep_the_promise();
    run_live(rt, alloc, settings, policies, world, script, report)
}
