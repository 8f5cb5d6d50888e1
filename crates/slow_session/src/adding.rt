// What an action adds to what has happened.
ghost use Rattle.std.specs.Prelude.{◌≡◌, None, OnOk, Some};
ghost use Rattle.session_actions.specs.Actions.{after, after_if, after_in};
ghost use Rattle.session_actions.specs.declared.entry.OpenEntry.{OpenEntry};

use crate::frames::{frame_read, frame_written};
use grpc_base::{Conn, NoMemory, Reply};
use session_actions::{Action, Seen};
use slow_changes::{
    SubChange, addresses_given, attempt_ended, attempt_made, attempt_placed, bytes_arrived,
    call_begun, call_committed, call_configured, call_ended, config_read, connect_timed_out,
    dial_failed, dial_taken, entry_made, hedge_withheld, item_taken, link_broken, link_lost,
    link_up, message_accepted, opened, pick_requested, ping_queued, policy_begun, policy_retired,
    policy_took_over, replied, request_finished, resolution_failed, settling, stream_reset,
    sub_added, with_sub,
};
use std::alloc::Global;

/// An action on the wire, or a shutdown.
fn after_wire(alloc: Global, seen: &mut Seen, action: Action) -> Result<(), NoMemory>
    ensures { (o : OpenEntry) → seen.old.current ≡ Some o → OnOk result (seen.new ≡ after_in o action seen.old) }
{
    match action {
        Action::BytesArrive { link } => bytes_arrived(alloc, seen, link),
        Action::FrameRead { link, read } => frame_read(alloc, seen, link, read),
        Action::LinkBreaks { link, code: _ } => {
            link_broken(alloc, seen, link);
            Ok(())
        }
        Action::LinkLost { link } => {
            link_lost(alloc, seen, link);
            Ok(())
        }
        Action::PingQueued { link } => ping_queued(alloc, seen, link),
        Action::FrameWritten { link, sent } => frame_written(alloc, seen, link, sent),
        Action::ChannelShuts => {
            seen.shut = true;
            replied(seen, Reply::Done);
            Ok(())
        }
        _ => Err(NoMemory),
    }
}

/// An action of subchannels, or one of those above.
fn after_subs(alloc: Global, seen: &mut Seen, action: Action) -> Result<(), NoMemory>
    ensures { (o : OpenEntry) → seen.old.current ≡ Some o → OnOk result (seen.new ≡ after_in o action seen.old) }
{
    match action {
        Action::SubchannelAdded { address } => sub_added(seen, address),
        Action::SubchannelShut { sub } => with_sub(
            alloc,
            seen,
            SubChange::Unlinked(Conn::Shutdown),
            sub,
        ),
        Action::SubchannelConnects { sub } => with_sub(
            alloc,
            seen,
            SubChange::State(Conn::Connecting),
            sub,
        ),
        Action::DialTaken { sub, again, until } => dial_taken(alloc, seen, sub, again, until),
        Action::DialFails { sub } => dial_failed(alloc, seen, sub),
        Action::ConnectTimesOut { sub } => connect_timed_out(alloc, seen, sub),
        Action::BackoffEnds { sub } => with_sub(alloc, seen, SubChange::State(Conn::Idle), sub),
        Action::LinkUp { sub } => link_up(alloc, seen, sub),
        Action::SettingsArrive { sub } => with_sub(alloc, seen, SubChange::Ready, sub),
        Action::LinkDown { sub } => with_sub(alloc, seen, SubChange::Down, sub),
        other => after_wire(alloc, seen, other),
    }
}

/// An action of attempts and policies, or one of those above.
fn after_attempts(alloc: Global, seen: &mut Seen, action: Action) -> Result<(), NoMemory>
    ensures { (o : OpenEntry) → seen.old.current ≡ Some o → OnOk result (seen.new ≡ after_in o action seen.old) }
{
    match action {
        Action::AttemptMade {
            call,
            number,
            kind,
            due,
        } => attempt_made(alloc, seen, call, number, kind, due),
        Action::HedgeWithheld { call } => hedge_withheld(alloc, seen, call),
        Action::PickRequested {
            row,
            generation,
            answer,
        } => pick_requested(seen, row, generation, answer),
        Action::AttemptPlaced { row, at } => attempt_placed(alloc, seen, row, at),
        Action::AttemptEnds { row, end } => attempt_ended(alloc, seen, row, end),
        Action::CallCommitted { row, why: _ } => call_committed(alloc, seen, row),
        Action::StreamReset { row, code } => stream_reset(alloc, seen, row, code),
        Action::PolicyBegins { kind } => policy_begun(alloc, seen, kind),
        Action::AddressesGiven { generation } => addresses_given(alloc, seen, generation),
        Action::PolicyTakesOver { generation } => policy_took_over(alloc, seen, generation),
        Action::PolicyRetired { generation } => policy_retired(alloc, seen, generation),
        other => after_subs(alloc, seen, other),
    }
}

/// An action while an entry is being made.
fn after_in(alloc: Global, seen: &mut Seen, action: Action) -> Result<(), NoMemory>
    ensures { (o : OpenEntry) → seen.old.current ≡ Some o → OnOk result (seen.new ≡ after_in o action seen.old) }
{
    match action {
        Action::EntryOpens { .. } => Ok(()),
        Action::EventRefused { refusal } => {
            replied(seen, Reply::Refused { refusal });
            Ok(())
        }
        Action::EventAnswered { reply } => {
            replied(seen, reply);
            Ok(())
        }
        Action::SettlingBegins => {
            settling(seen);
            Ok(())
        }
        Action::EntryCloses => entry_made(alloc, seen),
        other => after_calls(alloc, seen, other),
    }
}

/// An action of calls and configs, or one of those above.
fn after_calls(alloc: Global, seen: &mut Seen, action: Action) -> Result<(), NoMemory>
    ensures { (o : OpenEntry) → seen.old.current ≡ Some o → OnOk result (seen.new ≡ after_in o action seen.old) }
{
    match action {
        Action::CallBegins => call_begun(alloc, seen),
        Action::MessageAccepted { call } => message_accepted(alloc, seen, call),
        Action::RequestFinished { call } => {
            request_finished(alloc, seen, call);
            Ok(())
        }
        Action::ItemTaken { call, item } => item_taken(alloc, seen, call, item),
        Action::CallEnds { call, cause } => call_ended(alloc, seen, call, cause),
        Action::ConfigRead { config } => config_read(alloc, seen, config),
        Action::ResolutionFailed => {
            resolution_failed(seen);
            Ok(())
        }
        Action::CallConfigured { call, config } => call_configured(alloc, seen, call, config),
        other => after_attempts(alloc, seen, other),
    }
}

fn after_none(seen: &mut Seen, action: Action)
    ensures { seen.new ≡ after_if None action seen.old }
{
    if let Action::EntryOpens {
        posted,
        word,
        event,
    } = action
    {
        opened(seen, posted, word, event);
    }
}

/// What an action adds.
pub fn after(alloc: Global, seen: &mut Seen, action: Action) -> Result<(), NoMemory>
    ensures { OnOk result (seen.new ≡ after action seen.old) }
{
    match &seen.current {
        Some(_) => after_in(alloc, seen, action),
        None => {
            after_none(seen, action);
            Ok(())
        }
    }
}
