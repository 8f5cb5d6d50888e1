// The mode `relay`, with the promise of its session.
ghost use Rattle.std.specs.Prelude.{◌≡◌, ◌⊎◌, ◌≢◌, map, true};
ghost use Rattle.gate_io.specs.Outside.{Rises};
ghost use Rattle.relay_mode.specs.Relayed.{EndsUnrelayed, StopsAtRelay, ReportsBadRelay};
ghost use Rattle.channel_top.specs.Relay.{EndsRelayAsPromised, IsPromisedRelayText, IsRelayedAsPromised};
ghost use Rattle.session_text.specs.Writing.{WritesAll, WritesPrefix, WritesSome};
ghost use Rattle.policy_rack.specs.Kinds.{are_ready};

use crate::promise::sessions_keep_the_promise;
use dns_watch::NamedWorld;
use gate_io::{Listener, Sink, Source};
use lb_policy::Balancer;
use relay_mode::{RelaySettings, run_relay};
use std::alloc::Global;
use std::sync::Wait;
use std::thread::Threads;

/// Runs the mode, as `run_relay` does; the journal and the ledger that are reported keep the promise. It may never return.
pub fn relay_as_promised<
    R: Threads + Wait + Sync,
    P: Balancer + Send,
    S: Source,
    K: Sink,
    W: NamedWorld,
    L: Listener,
>(
    rt: &R,
    alloc: Global,
    settings: RelaySettings,
    policies: Vec<P>,
    world: W,
    script: &mut S,
    report: &mut K,
    listener: &mut L,
) -> u8
    requires { are_ready (map P.seen policies.items) ≡ true }
    ensures done { result ≡ 0 → WritesAll (IsRelayedAsPromised (map P.seen policies.items) (W.held world) settings.links (S.left script.old) (S.left script.new)) (K.taken report.old) (K.taken report.new) }
    ensures line { result ≡ 3 → WritesAll (ReportsBadRelay (S.left script.old) (S.left script.new)) (K.taken report.old) (K.taken report.new) }
    ensures reading { result ≡ 4 → StopsAtRelay (S.left script.old) (S.left script.new) (K.taken report.old) (K.taken report.new) (S.faults script.old) (S.faults script.new) }
    ensures writing { result ≡ 5 → Rises (K.faults report.old) (K.faults report.new) × WritesPrefix (IsPromisedRelayText (map P.seen policies.items) (W.held world) settings.links (S.left script.old) (S.left script.new)) (K.taken report.old) (K.taken report.new) }
    ensures memory { result ≡ 6 → WritesSome (IsPromisedRelayText (map P.seen policies.items) (W.held world) settings.links (S.left script.old) (S.left script.new)) (K.taken report.old) (K.taken report.new) }
    ensures full { result ≡ 7 → WritesAll (EndsRelayAsPromised (map P.seen policies.items) (W.held world) settings.links (S.left script.old) (S.left script.new)) (K.taken report.old) (K.taken report.new) }
    ensures not_listening { result ≡ 8 → EndsUnrelayed (S.left script.old) (S.left script.new) (K.taken report.old) (K.taken report.new) (L.faults listener.old) (L.faults listener.new) }
    ensures listened { result ≢ 6 → result ≢ 8 → L.faults listener.new ≡ L.faults listener.old }
    ensures known { (result ≡ 0) ⊎ (result ≡ 3) ⊎ (result ≡ 4) ⊎ (result ≡ 5) ⊎ (result ≡ 6) ⊎ (result ≡ 7) ⊎ (result ≡ 8) }
{
    sessions_keep_the_promise();
    run_relay(
        rt, alloc, settings, policies, world, script, report, listener,
    )
}
