//! What holds of every run of a stream: laws over the steps that the calls of a stream are.

ghost use Rattle.std.specs.Prelude.{◌≡◌, ◌<◌, ◌≤◌, ℕ, ◌+◌, ℤ, pos, ◌+ℤ◌, ◌-ℤ◌, ◌≤ℤ◌, Bool, true, false, List};
ghost use Rattle.h2_stream.specs.State.{is_closed, is_closed_remotely};
ghost use Rattle.h2_stream.specs.Stream.{StreamView, IsWindow, opened, sendable};
ghost use Rattle.h2_stream.specs.Steps.{reset_step};
ghost use Rattle.h2_stream.specs.Runs.{Event, Data, Shift, run, after, is_taken, taken, credit_in, sent_in, received_in, granted_in, IsAllowed, is_shift, HasRoom, TakesNoContent, TakesNothing};

/// The send window is always the first one and all increments and shifts, less what was sent. So whenever octets are
/// sent, all that were sent up to then, these included, are within what the peer had granted (RFC 9113, section 6.9.1).
pub fn sends_within_credit()
    ensures window { (s : StreamView) (events : List Event) →
        (run s events).send ≡ (s.send +ℤ credit_in (taken s events)) -ℤ pos (sent_in events) }
    ensures sent { (s : StreamView) (events : List Event) (len : ℕ) → 0 < len → len ≤ sendable (run s events) →
        pos (sent_in events + len) ≤ℤ (s.send +ℤ credit_in (taken s events)) }
{}

/// The receive window is always the first one and all grants, less what was taken. So all DATA that is taken of the
/// peer is within what it had been granted.
pub fn receives_within_grants()
    ensures window { (s : StreamView) (events : List Event) →
        (run s events).receive ≡ (s.receive +ℤ pos (granted_in events)) -ℤ pos (received_in (taken s events)) }
    ensures received { (s : StreamView) (events : List Event) (len : ℕ) (end : Bool) → is_taken (run s events) (Data len end) ≡ true →
        pos (received_in (taken s events) + len) ≤ℤ (s.receive +ℤ pos (granted_in events)) }
{}

/// Once the peer has ended a stream, no header block and no DATA of it has any effect, and once both sides have, or one of
/// them has reset it, nothing that the peer does has any (RFC 9113, section 5.1).
pub fn ended_takes_nothing_more()
    ensures content { (s : StreamView) (events : List Event) → is_closed_remotely s.state ≡ true → TakesNoContent s events }
    ensures closed { (s : StreamView) (events : List Event) → is_closed s.state ≡ true → TakesNothing s events }
    ensures reset { (s : StreamView) (events : List Event) → TakesNothing (reset_step s) events }
    ensures sends_nothing { (s : StreamView) → sendable (reset_step s) ≡ 0 }
{}

/// A stream that begins with the peer's initial window size, and is given each change of it until it is closed, always
/// meets the condition of `shift` (RFC 9113, section 6.9.2).
pub fn shifts_are_allowed()
    ensures opened { (initial receive : ℤ) → HasRoom initial (opened initial receive) }
    ensures kept { (initial : ℤ) (s : StreamView) (event : Event) → IsWindow initial → HasRoom initial s →
        IsAllowed s event → is_shift event ≡ false → HasRoom initial (after s event) }
    ensures allowed { (initial next : ℤ) (s : StreamView) → IsWindow initial → IsWindow next → HasRoom initial s →
        IsAllowed s (Shift (next -ℤ initial)) }
    ensures shifted { (initial next : ℤ) (s : StreamView) → IsWindow initial → IsWindow next → HasRoom initial s →
        is_closed s.state ≡ false → HasRoom next (after s (Shift (next -ℤ initial))) }
{}
