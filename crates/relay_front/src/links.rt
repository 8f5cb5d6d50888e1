// The job of one link: its bytes go to the connection, and what the connection has to send goes out.
ghost use Rattle.std.specs.Prelude.{◌≡◌, ◌<◌, ◌≤◌, None, Some, IfSome, length, take, true, false};
ghost use Rattle.grpc_base.specs.Counts.{one_more};
ghost use Rattle.gate_io.specs.Outside.{Appends, AppendsPrefix};
ghost use Rattle.live_pump.specs.Pumps.{HandleSeen, IsOver, OutSeen};
ghost use Rattle.relay_calls.specs.Posting.{Eyes, eyes_of};
ghost use Rattle.relay_front.specs.Rounds.{Finishes, GoesOut, LinkEyes, Reads, RoundOf, RunsOn, RunsTo, ReportsEnd, ReportsLink, TurnsLink, Writes, end_of, link_eyes_of};

use crate::ends::relay_close;
use crate::relay_core::RelayCore;
use crate::turned::RelayTurn;
use crate::turns::relay_turn;
use gate_io::{LinkIn, LinkOut, LinkRead, Pause, PollDelay, WriteAnswer};
use grpc_base::{Glance, Post};
use relay_connection::RelayFault;
use std::sync::Wait;

/// The most bytes that one read takes.
const READ_BYTES: usize = 16_384;

/// The room that a drain is given.
const DRAIN_ROOM: u32 = 65_536;

/// Why the rounds of a link end.
#[derive(Clone, Copy, Debug)]
pub enum LinkEnd {
    /// A read gave the link's end, or failed, or a write failed.
    Lost,
    /// A turn answered that the client's bytes broke the protocol.
    Broken { code: u32 },
    /// A turn answered otherwise than that and Going.
    Turned(RelayTurn),
    /// A drain found no memory.
    NoMemory,
}

/// The end of the rounds that this answer of a turn is.
fn end_of(turn: RelayTurn) -> LinkEnd
    ensures { result ≡ end_of turn }
{
    match turn {
        RelayTurn::Broken { code } => LinkEnd::Broken { code },
        other => LinkEnd::Turned(other),
    }
}

/// Writes a piece whole, and says whether all of it was taken.
fn write_all<O: LinkOut>(output: &mut O, piece: &[u8]) -> bool
    ensures whole { result ≡ true → Appends (O.taken output.old) (O.taken output.new) piece.now }
    ensures part { result ≡ false → AppendsPrefix (O.taken output.old) (O.taken output.new) piece.now }
    ensures steady { result ≡ true → O.faults output.new ≡ O.faults output.old }
    ensures once { result ≡ false → O.faults output.new ≡ one_more (O.faults output.old) }
{
    let mut at = 0;
    while at < piece.len() {
        match output.write(&piece[at..]) {
            WriteAnswer::Took(count) => at += count,
            WriteAnswer::Failed => return false,
        }
    }
    true
}

/// Writes what was drained.
fn write_out<O: LinkOut>(output: &mut O, piece: &[u8]) -> Option<LinkEnd>
    ensures writes { Writes (λ (o : O). let seen : OutSeen = record { taken = O.taken o; faults = O.faults o } in seen) piece.now output.old output.new result }
    ensures reports_that { (before after : HandleSeen) → after.errors ≡ before.errors → ReportsEnd before after result }
{
    if write_all(output, piece) {
        return None;
    }
    Some(LinkEnd::Lost)
}

/// Bytes that go out count as a try that found something.
fn note(poll_delay: &mut PollDelay, count: usize) {
    if count > 0 {
        poll_delay.hit();
    }
}

/// Writes all of one drain. A connection that is broken has nothing to write.
fn drain_out<O: LinkOut>(
    core: &mut RelayCore,
    poll_delay: &mut PollDelay,
    output: &mut O,
) -> Option<LinkEnd>
    ensures out { GoesOut (λ (o : O). let seen : OutSeen = record { taken = O.taken o; faults = O.faults o } in seen) core.old output.old core.new output.new result }
    ensures reports_that { (before after : HandleSeen) → after.errors ≡ before.errors → ReportsEnd before after result }
{
    match core.drain(DRAIN_ROOM) {
        Ok(octets) => {
            note(poll_delay, octets.len());
            write_out(output, octets.as_slice())
        }
        Err(RelayFault::Broken { code: _ }) => None,
        Err(RelayFault::NoMemory) => Some(LinkEnd::NoMemory),
        Err(RelayFault::RoomTooSmall) => unreachable!(),
    }
}

/// A turn with what came, and a drain.
fn turn_link<P: Post + Glance, O: LinkOut>(
    post: &mut P,
    core: &mut RelayCore,
    poll_delay: &mut PollDelay,
    piece: &[u8],
    output: &mut O,
) -> Option<LinkEnd>
    ensures turned { let eyes : Eyes P = eyes_of P.made P.errors P.last_error P.looks P.last_look in TurnsLink eyes (λ (o : O). let seen : OutSeen = record { taken = O.taken o; faults = O.faults o } in seen) piece.now core.old post.old output.old core.new post.new output.new result }
    ensures reports_that { let before : HandleSeen = record { made = P.made post.old; errors = P.errors post.old; last = P.last_error post.old } in let after : HandleSeen = record { made = P.made post.new; errors = P.errors post.new; last = P.last_error post.new } in ReportsEnd before after result }
    ensures share { P.share post.new ≡ P.share post.old }
{
    let turn = relay_turn(post, core, piece);
    if !turn.is_going() {
        return Some(end_of(turn));
    }
    drain_out(core, poll_delay, output)
}

/// How long a read may wait: not at all after a round in which something came or went out, since more may go out at once. Without a call
/// nothing else is to come but bytes of the client, and they end each wait of a read.
fn pause_of(core: &RelayCore, poll_delay: &PollDelay) -> Pause {
    let pause = poll_delay.pause();
    if pause != Pause::None && core.count() == 0 {
        return Pause::Long;
    }
    pause
}

/// Reads once, and says how many bytes came; None where the link gave its end or the read failed.
fn read_link<I: LinkIn>(
    pause: Pause,
    poll_delay: &mut PollDelay,
    input: &mut I,
    buffer: &mut [u8],
) -> Option<usize>
    requires some { 0 < length buffer.old }
    requires most { length buffer.old ≤ 16384 }
    ensures over { result ≡ None → IsOver (record { left = I.left input.old; faults = I.faults input.old; quiet = I.quiet input.old }) (record { left = I.left input.new; faults = I.faults input.new; quiet = I.quiet input.new }) }
    ensures reads { IfSome result (λ count. Reads (record { left = I.left input.old; faults = I.faults input.old; quiet = I.quiet input.old }) (record { left = I.left input.new; faults = I.faults input.new; quiet = I.quiet input.new }) (take count buffer.new)) }
    ensures within { IfSome result (λ count. count ≤ length buffer.new) }
    ensures same { length buffer.new ≡ length buffer.old }
{
    input.wait_at_most(pause);
    match input.read(buffer) {
        LinkRead::Got(count) => {
            poll_delay.hit();
            Some(count)
        }
        LinkRead::Quiet => {
            poll_delay.miss();
            Some(0)
        }
        LinkRead::End | LinkRead::Failed => None,
    }
}

/// One round: a read, a turn with what came, and a drain that is written whole.
fn round<P: Post + Glance, I: LinkIn, O: LinkOut>(
    post: &mut P,
    core: &mut RelayCore,
    poll_delay: &mut PollDelay,
    input: &mut I,
    output: &mut O,
) -> Option<LinkEnd>
    ensures round { let eyes : LinkEyes P I O = link_eyes_of (eyes_of P.made P.errors P.last_error P.looks P.last_look) I.left I.faults I.quiet O.taken O.faults in RoundOf eyes (record { core = core.old; post = post.old; input = input.old; output = output.old }) (record { core = core.new; post = post.new; input = input.new; output = output.new }) result }
    ensures reports_that { let before : HandleSeen = record { made = P.made post.old; errors = P.errors post.old; last = P.last_error post.old } in let after : HandleSeen = record { made = P.made post.new; errors = P.errors post.new; last = P.last_error post.new } in ReportsEnd before after result }
    ensures share { P.share post.new ≡ P.share post.old }
{
    let mut piece = [0u8; READ_BYTES];
    let pause = pause_of(core, poll_delay);
    match read_link(pause, poll_delay, input, &mut piece) {
        Some(count) => turn_link(post, core, poll_delay, &piece[..count], output),
        None => Some(LinkEnd::Lost),
    }
}

/// The rounds alone.
fn run_rounds<W: Wait, P: Post + Glance, I: LinkIn, O: LinkOut>(
    rt: &W,
    post: &mut P,
    core: &mut RelayCore,
    input: &mut I,
    output: &mut O,
) -> LinkEnd
    ensures run { let eyes : LinkEyes P I O = link_eyes_of (eyes_of P.made P.errors P.last_error P.looks P.last_look) I.left I.faults I.quiet O.taken O.faults in RunsOn eyes (record { core = core.old; post = post.old; input = input.old; output = output.old }) (record { core = core.new; post = post.new; input = input.new; output = output.new }) result }
    ensures reports_that { let before : HandleSeen = record { made = P.made post.old; errors = P.errors post.old; last = P.last_error post.old } in let after : HandleSeen = record { made = P.made post.new; errors = P.errors post.new; last = P.last_error post.new } in ReportsEnd before after (Some result) }
    ensures share { P.share post.new ≡ P.share post.old }
{
    let mut poll_delay = PollDelay::new();
    for _ in rt.forever() {
        if let Some(end) = round(post, core, &mut poll_delay, input, output) {
            return end;
        }
    }
    unreachable!()
}

/// What is left to be done at the end of a link, and what its job answers.
fn finish<P: Post>(post: &mut P, core: &mut RelayCore, end: LinkEnd) -> RelayTurn
    ensures finishes { let eyes : Eyes P = eyes_of P.made P.errors P.last_error P.looks P.last_look in Finishes eyes end core.old post.old core.new post.new result }
    ensures reports_that { let before : HandleSeen = record { made = P.made post.old; errors = P.errors post.old; last = P.last_error post.old } in let after : HandleSeen = record { made = P.made post.new; errors = P.errors post.new; last = P.last_error post.new } in (start : HandleSeen) → ReportsEnd start before (Some end) → ReportsLink start after result }
    ensures share { P.share post.new ≡ P.share post.old }
{
    match end {
        LinkEnd::Lost => relay_close(post, core),
        LinkEnd::Broken { code } => {
            relay_close(post, core);
            RelayTurn::Broken { code }
        }
        LinkEnd::Turned(turn) => turn,
        LinkEnd::NoMemory => RelayTurn::NoMemory,
    }
}

/// The job of one link of a relay, which may wait and may never return. Each round reads once, into 16,384 bytes, makes one turn with what
/// came, and writes all of a drain with room for 65,536 bytes; a connection that is broken has nothing to write. It ends where a read gave
/// the link's end or failed, a write failed, a turn answered other than Going, or a drain found no memory. After an end, a failed read, a
/// failed write and Broken each call that is open is cancelled, by `relay_close`. At its end the output is closed.
///
/// It answers what the turn did where a turn ended it, NoMemory where a drain found no memory, and else what `relay_close` did.
pub fn relay_link<W: Wait, P: Post + Glance, I: LinkIn, O: LinkOut>(
    rt: &W,
    post: &mut P,
    core: &mut RelayCore,
    input: &mut I,
    output: &mut O,
) -> RelayTurn
    ensures runs { let eyes : LinkEyes P I O = link_eyes_of (eyes_of P.made P.errors P.last_error P.looks P.last_look) I.left I.faults I.quiet O.taken O.faults in RunsTo eyes (record { core = core.old; post = post.old; input = input.old; output = output.old }) (record { core = core.new; post = post.new; input = input.new; output = output.new }) result }
    ensures closed { O.closed output.new ≡ true }
    ensures reports_that { let before : HandleSeen = record { made = P.made post.old; errors = P.errors post.old; last = P.last_error post.old } in let after : HandleSeen = record { made = P.made post.new; errors = P.errors post.new; last = P.last_error post.new } in ReportsLink before after result }
    ensures share { P.share post.new ≡ P.share post.old }
{
    let end = run_rounds(rt, post, core, input, output);
    let turn = finish(post, core, end);
    output.close();
    turn
}
