// The keepalive of one link.
ghost use Rattle.std.specs.Prelude.{◌≡◌, ◌≤◌, ◌↔◌, ◌∷◌, [], ℕ, List, Err, IfOk, IsTrue, true, false, Some, None};
ghost use Rattle.grpc_base.specs.Limits.{moment_limit};
ghost use Rattle.keepalive_core.specs.Keepalive.{IsKeepRule, KeepSeen, keep_turn, kind_of, next_due, stand_after, stand_next};
ghost use Rattle.keepalive_core.specs.declared.rule.KeepEntry.{KeepEntry};
ghost use Rattle.keepalive_core.specs.declared.rule.KeepFault.TheVariants as fault;
ghost use Rattle.keepalive_core.specs.declared.rule.KeepKind.TheVariants as kind;

use crate::{KeepFault, KeepRule, KeepTurn};
use grpc_base::Duration;
use std::marker::Model;

/// Watches one link: a ping once nothing came for the rule's time, and the link is lost once the ping was not
/// answered within the timeout. Moments are in nanoseconds, at most 4,000,000,000,000,000,000; one below the
/// last counts as the last.
#[derive(Clone, Copy, Debug)]
pub struct Keepalive {
    rule: KeepRule,
    moment: u64,
    heard: u64,
    pings: u64,
    sent: Option<u64>,
    lost: Option<u64>,
}

impl Model for Keepalive {
    ghost use Rattle.std.specs.Prelude.{◌≤◌, IfSome, IsSome, MatchOption};
    ghost use Rattle.grpc_base.specs.Limits.{moment_limit};
    ghost use Rattle.keepalive_core.specs.Keepalive.{IsKeepRule, KeepSeen};

    ghost Value = { KeepSeen };

    ghost view = { λ k. record { rule = k.rule; moment = k.moment; heard = k.heard; pings = k.pings; sent = k.sent; lost = k.lost } };

    ghost invariant = { λ k. IsKeepRule k.rule × (k.moment ≤ moment_limit) × (k.heard ≤ k.moment) × MatchOption k.sent (k.pings ≤ k.heard) (λ s. (s ≤ k.moment) × (k.pings ≤ s)) × IfSome k.lost (λ _. IsSome k.sent) };

    ghost inverse = { λ k. record { rule = k.rule; moment = k.moment; heard = k.heard; pings = k.pings; sent = k.sent; lost = k.lost } };
}

impl Keepalive {
    /// The keepalive of a link that was opened at a moment.
    pub fn new(rule: KeepRule, moment: u64) -> Result<Keepalive, KeepFault>
        requires { moment ≤ moment_limit }
        ensures ok { IfOk result (λ k. k ≡ stand_after rule moment []) }
        ensures bad_rule { (result ≡ Err fault.BadRule) ↔ (IsKeepRule rule → ⊥) }
    {
        if !is_rule(rule) {
            return Err(KeepFault::BadRule);
        }
        Ok(Keepalive::of_rule(rule, moment))
    }

    /// The same for a rule that is fine.
    pub(crate) fn of_rule(rule: KeepRule, moment: u64) -> Keepalive
        requires rule { IsKeepRule rule }
        requires within { moment ≤ moment_limit }
        ensures { result ≡ stand_after rule moment [] }
    {
        Keepalive {
            rule,
            moment,
            heard: moment,
            pings: 0,
            sent: None,
            lost: None,
        }
    }

    /// Bytes came.
    pub fn octets(&mut self, moment: u64)
        requires { moment ≤ moment_limit }
        ensures stand { self.new ≡ stand_next self.old kind.Octets moment }
        ensures law { (start : ℕ) (log : List KeepEntry) → self.old ≡ stand_after self.old.rule start log → self.new ≡ stand_after self.old.rule start (record { moment = moment; kind = kind.Octets } ∷ log) }
    {
        self.receive(moment);
    }

    /// Notes that bytes came.
    fn receive(&mut self, moment: u64)
        requires { moment ≤ moment_limit }
        ensures { self.new ≡ stand_next self.old kind.Octets moment }
    {
        if self.lost.is_some() {
            return;
        }
        self.moment = self.moment.max(moment);
        self.heard = self.moment;
        self.sent = None;
    }

    /// What a turn answers.
    fn answer(&self, moment: u64) -> KeepTurn
        requires { moment ≤ moment_limit }
        ensures { result ≡ keep_turn self.now moment }
    {
        let now = self.moment.max(moment);
        match self.sent {
            Some(sent) => {
                if self.lost.is_none() && now < sent + self.rule.timeout {
                    return KeepTurn::Nothing;
                }
                KeepTurn::Lost {
                    heard: self.heard,
                    sent,
                }
            }
            None => {
                if now < self.heard + self.rule.time {
                    return KeepTurn::Nothing;
                }
                KeepTurn::SendPing {
                    word: self.pings + 1,
                }
            }
        }
    }

    /// What is to be done at a moment. A ping is due once nothing came for the rule's time; the link is lost once
    /// a ping was not answered for the timeout, and then for good, whatever is called afterwards.
    pub fn turn(&mut self, moment: u64) -> KeepTurn
        requires { moment ≤ moment_limit }
        ensures answer { result ≡ keep_turn self.old moment }
        ensures stand { self.new ≡ stand_next self.old (kind_of result) moment }
        ensures law { (start : ℕ) (log : List KeepEntry) → self.old ≡ stand_after self.old.rule start log → self.new ≡ stand_after self.old.rule start (record { moment = moment; kind = kind_of result } ∷ log) }
    {
        let answer = self.answer(moment);
        self.note(answer, moment);
        answer
    }

    /// Notes what a turn answered.
    fn note(&mut self, answer: KeepTurn, moment: u64)
        requires within { moment ≤ moment_limit }
        requires answer { answer ≡ keep_turn self.old moment }
        ensures { self.new ≡ stand_next self.old (kind_of answer) moment }
    {
        if self.lost.is_some() {
            return;
        }
        self.moment = self.moment.max(moment);
        match answer {
            KeepTurn::Nothing => {}
            KeepTurn::SendPing { word } => {
                self.pings = word;
                self.sent = Some(self.moment);
            }
            KeepTurn::Lost { .. } => self.lost = Some(self.moment),
        }
    }

    /// The first moment at which a turn answers other than Nothing; once the link is lost, when that was.
    pub fn next(&self) -> u64
        ensures { result ≡ next_due self.now }
    {
        if let Some(lost) = self.lost {
            return lost;
        }
        match self.sent {
            Some(sent) => sent + self.rule.timeout,
            None => self.heard + self.rule.time,
        }
    }
}

/// Whether a rule's durations are above 0 and within the limit of a duration.
pub(crate) fn is_rule(rule: KeepRule) -> bool
    ensures { IsTrue result ↔ IsKeepRule rule }
{
    0 < rule.time
        && rule.time <= Duration::LIMIT
        && 0 < rule.timeout
        && rule.timeout <= Duration::LIMIT
}
