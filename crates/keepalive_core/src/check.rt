// Deciding whether a list of what was done about a link keeps the rules.
ghost use Rattle.std.specs.Prelude.{◌≡◌, ◌≤◌, [], ◌∷◌, ℕ, true, All, MatchOption, None, Some, OnOk, IfErr};
ghost use Rattle.grpc_base.specs.Limits.{moment_limit};
ghost use Rattle.keepalive_core.specs.Keepalive.{IsKeepRule, first_fault, is_next, kind_of, same_kind, stand_next};

use crate::{KeepEntry, KeepKind, KeepRule, KeepTurn, Keepalive};

/// The first entry of a list that breaks the rules.
#[derive(Clone, Copy, Debug, PartialEq, Eq)]
pub struct KeepLogFault {
    /// The place of the entry, from 1.
    pub place: u64,
}

/// Whether a turn answered so.
fn is_same(kind: KeepKind, answer: KeepTurn) -> bool
    ensures { result ≡ same_kind kind (kind_of answer) }
{
    match (kind, answer) {
        (KeepKind::Quiet, KeepTurn::Nothing) => true,
        (KeepKind::Ping(sent), KeepTurn::SendPing { word }) => sent == word,
        (KeepKind::Lost, KeepTurn::Lost { .. }) => true,
        _ => false,
    }
}

/// Whether an entry is what the rules say, and if so, what follows from it.
fn follows(keep: &mut Keepalive, entry: &KeepEntry) -> bool
    requires { entry.now.moment ≤ moment_limit }
    ensures reported { result ≡ is_next keep.old entry.now }
    ensures stand { result ≡ true → keep.new ≡ stand_next keep.old entry.now.kind entry.now.moment }
{
    match entry.kind {
        KeepKind::Octets => {
            keep.octets(entry.moment);
            true
        }
        kind => is_same(kind, keep.turn(entry.moment)),
    }
}

/// The first entry, and those after it.
fn first_entry(log: &[KeepEntry]) -> Option<(&KeepEntry, &[KeepEntry])>
    ensures { MatchOption result (log.now ≡ []) (λ x. log.now ≡ x.0.now ∷ x.1.now) }
{
    log.split_first()
}

/// Whether a list of what was done about a link, from its opening on, keeps the rules; the fault is its first entry
/// that does not.
#[tactic(auto, using(crate::proofs::KeepLaws::fault_here))]
pub fn check_keep(rule: KeepRule, start: u64, log: &[KeepEntry]) -> Result<(), KeepLogFault>
    requires rule { IsKeepRule rule }
    requires start { start ≤ moment_limit }
    requires moments { All (λ e. e.moment ≤ moment_limit) log.now }
    ensures ok { OnOk result (first_fault rule start [] log.now ≡ None) }
    ensures fault { IfErr result (λ f. first_fault rule start [] log.now ≡ Some f.place) }
{
    let mut keep = Keepalive::of_rule(rule, start);
    let mut rest = log;
    let mut place = 0u64;
    while let Some((entry, later)) = first_entry(rest) {
        place += 1;
        if !follows(&mut keep, entry) {
            return Err(KeepLogFault { place });
        }
        rest = later;
    }
    Ok(())
}
