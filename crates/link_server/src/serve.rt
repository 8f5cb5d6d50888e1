// The turns in which a link is served.
ghost use Rattle.std.specs.Prelude.{◌≡◌, ◌<◌, ◌∷◌, [], List, Option, Some, IfSome, false, length, true, ℕ};
ghost use Rattle.grpc_base.specs.Counts.{one_more};
ghost use Rattle.gate_io.specs.Outside.{Appends, AppendsPrefix};
ghost use Rattle.link_server.specs.Serves.{GoesIn, GoesOut, HasCause, IsRefusal, IsSent, IsWritten, over_of};
ghost use Rattle.link_server.specs.Serving.{Gains, IsSame};
ghost use Rattle.link_server.specs.declared.done.LinkDone.TheVariants as ended_by;

use crate::{LinkDone, Serving, Turned};
use gate_io::{LinkIn, LinkOut, LinkRead, WriteAnswer};
use loop_server::ServerFault;
use std::sync::Wait;

/// The most bytes that one read takes.
const READ_BYTES: usize = 16_384;

/// The most rounds of one turn, so that a link that sends without an end leaves the others theirs.
const ROUNDS: usize = 16;

/// Writes a piece whole, and says whether all of it was taken. It is not exactly where a write of this call
/// failed: that write is the only one that failed, and what was taken before it is a prefix of the piece.
fn write_all<O: LinkOut>(output: &mut O, piece: &[u8]) -> bool
    ensures whole { result ≡ true → Appends (O.taken output.old) (O.taken output.new) piece.now }
    ensures part { result ≡ false → AppendsPrefix (O.taken output.old) (O.taken output.new) piece.now }
    ensures steady { result ≡ true → O.faults output.new ≡ O.faults output.old }
    ensures once { result ≡ false → O.faults output.new ≡ one_more (O.faults output.old) }
{
    let mut at = 0;
    while at < piece.len() {
        match output.write(&piece[at..]) {
            WriteAnswer::Took(count) => at += count,
            WriteAnswer::Failed => return false,
        }
    }
    true
}

/// Writes what the server gave.
fn write_out<O: LinkOut>(output: &mut O, piece: &[u8]) -> Option<LinkDone>
    ensures sent { IsSent result (O.taken output.old) (O.taken output.new) piece.now }
    ensures cause { IsWritten result (O.faults output.old) (O.faults output.new) }
{
    if write_all(output, piece) {
        return None;
    }
    Some(LinkDone::WriteFailed)
}

/// Writes all that the server has for the link.
fn give<V: Serving, O: LinkOut>(core: &mut V, link: u32, output: &mut O) -> Option<LinkDone>
    ensures out { GoesOut link (V.drained core.old) (V.drained core.new) (O.taken output.old) (O.taken output.new) result }
    ensures given { IsSame (V.given core.old) (V.given core.new) }
    ensures cause { (reads : ℕ) (left : Option (List ℕ)) → HasCause result (record { breaks = V.breaks core.old; last_code = V.last_code core.old; read_faults = reads; write_faults = O.faults output.old }) (record { breaks = V.breaks core.new; last_code = V.last_code core.new; read_faults = reads; write_faults = O.faults output.new }) left }
{
    match core.drain(link) {
        Ok(octets) => write_out(output, octets.as_slice()),
        Err(_) => Some(LinkDone::NoMemory),
    }
}

/// Hands a piece to the server.
fn hand<V: Serving>(core: &mut V, link: u32, piece: &[u8]) -> Option<LinkDone>
    requires { 0 < length piece.now }
    ensures given { Gains (V.given core.old) (V.given core.new) link (piece.now ∷ []) }
    ensures drained { IsSame (V.drained core.old) (V.drained core.new) }
    ensures cause { IsRefusal result (V.breaks core.old) (V.last_code core.old) (V.breaks core.new) (V.last_code core.new) }
{
    match core.arrived(link, piece) {
        Ok(()) => None,
        Err(fault) => match fault {
            ServerFault::Broken { code } => Some(LinkDone::Broken { code }),
            ServerFault::NoMemory => Some(LinkDone::NoMemory),
        },
    }
}

/// What a round came to in which the server answered a piece so.
fn answered(done: Option<LinkDone>) -> Turned
    ensures { over_of result ≡ done }
{
    match done {
        None => Turned::More,
        Some(done) => Turned::Over(done),
    }
}

/// Reads once, and hands what came to the server.
fn take<V: Serving, I: LinkIn>(core: &mut V, link: u32, input: &mut I) -> Turned
    ensures into { GoesIn link (V.given core.old) (V.given core.new) (I.left input.old) (I.left input.new) }
    ensures drained { IsSame (V.drained core.old) (V.drained core.new) }
    ensures cause { (writes : ℕ) → HasCause (over_of result) (record { breaks = V.breaks core.old; last_code = V.last_code core.old; read_faults = I.faults input.old; write_faults = writes }) (record { breaks = V.breaks core.new; last_code = V.last_code core.new; read_faults = I.faults input.new; write_faults = writes }) (I.left input.new) }
    ensures written { over_of result ≡ Some ended_by.WriteFailed → ⊥ }
{
    let mut piece = [0u8; READ_BYTES];
    match input.read(&mut piece) {
        LinkRead::Got(count) => answered(hand(core, link, &piece[..count])),
        LinkRead::Quiet => Turned::Quiet,
        LinkRead::End => Turned::Over(LinkDone::Ended),
        LinkRead::Failed => Turned::Over(LinkDone::ReadFailed),
    }
}

/// One round: all that the server has goes out, and one read goes in.
fn round<V: Serving, I: LinkIn, O: LinkOut>(
    core: &mut V,
    link: u32,
    input: &mut I,
    output: &mut O,
) -> Turned
    ensures into { GoesIn link (V.given core.old) (V.given core.new) (I.left input.old) (I.left input.new) }
    ensures out { GoesOut link (V.drained core.old) (V.drained core.new) (O.taken output.old) (O.taken output.new) (over_of result) }
    ensures cause { HasCause (over_of result) (record { breaks = V.breaks core.old; last_code = V.last_code core.old; read_faults = I.faults input.old; write_faults = O.faults output.old }) (record { breaks = V.breaks core.new; last_code = V.last_code core.new; read_faults = I.faults input.new; write_faults = O.faults output.new }) (I.left input.new) }
{
    match give(core, link, output) {
        None => take(core, link, input),
        Some(done) => Turned::Over(done),
    }
}

/// The rounds of a turn.
fn run_rounds<V: Serving, I: LinkIn, O: LinkOut>(
    core: &mut V,
    link: u32,
    input: &mut I,
    output: &mut O,
) -> Turned
    ensures into { GoesIn link (V.given core.old) (V.given core.new) (I.left input.old) (I.left input.new) }
    ensures out { GoesOut link (V.drained core.old) (V.drained core.new) (O.taken output.old) (O.taken output.new) (over_of result) }
    ensures cause { HasCause (over_of result) (record { breaks = V.breaks core.old; last_code = V.last_code core.old; read_faults = I.faults input.old; write_faults = O.faults output.old }) (record { breaks = V.breaks core.new; last_code = V.last_code core.new; read_faults = I.faults input.new; write_faults = O.faults output.new }) (I.left input.new) }
{
    for _ in 0..ROUNDS {
        match round(core, link, input, output) {
            Turned::More => {}
            Turned::Quiet => return Turned::Quiet,
            Turned::Over(done) => return Turned::Over(done),
        }
    }
    Turned::More
}

/// A turn of one link: in at most sixteen rounds all that the server has for it is written, and what one read brings, at most 16,384
/// bytes, goes to the server. The turn is over where a read is quiet. At the link's end its output is closed.
///
/// | Over with | Only where |
/// |---|---|
/// | Ended | a read gave the link's end |
/// | ReadFailed | a read failed |
/// | WriteFailed | a write failed; what was taken is a prefix of what the server gave |
/// | Broken | the server answered that the link is broken, with this code |
/// | NoMemory | the server found no memory |
pub fn serve_turn<V: Serving, I: LinkIn, O: LinkOut>(
    core: &mut V,
    link: u32,
    input: &mut I,
    output: &mut O,
) -> Turned
    ensures into { GoesIn link (V.given core.old) (V.given core.new) (I.left input.old) (I.left input.new) }
    ensures out { GoesOut link (V.drained core.old) (V.drained core.new) (O.taken output.old) (O.taken output.new) (over_of result) }
    ensures cause { HasCause (over_of result) (record { breaks = V.breaks core.old; last_code = V.last_code core.old; read_faults = I.faults input.old; write_faults = O.faults output.old }) (record { breaks = V.breaks core.new; last_code = V.last_code core.new; read_faults = I.faults input.new; write_faults = O.faults output.new }) (I.left input.new) }
    ensures closed { IfSome (over_of result) (λ _. O.closed output.new ≡ true) }
{
    match run_rounds(core, link, input, output) {
        Turned::Over(done) => {
            output.close();
            Turned::Over(done)
        }
        Turned::Quiet => Turned::Quiet,
        Turned::More => Turned::More,
    }
}

/// Serves one link to its end, turn by turn. It may never return.
///
/// | Answer | Only where |
/// |---|---|
/// | Ended | a read gave the link's end |
/// | ReadFailed | a read failed |
/// | WriteFailed | a write failed; what was taken is a prefix of what the server gave |
/// | Broken | the server answered that the link is broken, with this code |
/// | NoMemory | the server found no memory |
pub fn serve_link<W: Wait, V: Serving, I: LinkIn, O: LinkOut>(
    rt: &W,
    core: &mut V,
    link: u32,
    input: &mut I,
    output: &mut O,
) -> LinkDone
    ensures into { GoesIn link (V.given core.old) (V.given core.new) (I.left input.old) (I.left input.new) }
    ensures out { GoesOut link (V.drained core.old) (V.drained core.new) (O.taken output.old) (O.taken output.new) (Some result) }
    ensures cause { HasCause (Some result) (record { breaks = V.breaks core.old; last_code = V.last_code core.old; read_faults = I.faults input.old; write_faults = O.faults output.old }) (record { breaks = V.breaks core.new; last_code = V.last_code core.new; read_faults = I.faults input.new; write_faults = O.faults output.new }) (I.left input.new) }
    ensures closed { O.closed output.new ≡ true }
{
    for _ in rt.forever() {
        match serve_turn(core, link, input, output) {
            Turned::More | Turned::Quiet => {}
            Turned::Over(done) => return done,
        }
    }
    unreachable!()
}
