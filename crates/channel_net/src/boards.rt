// Changes of a subchannel by its number; a number that none has changes nothing.
ghost use Rattle.std.specs.Prelude.{◌≡◌, is_some};
ghost use Rattle.subchannel.specs.Records.{wished, dialed, linked_up, failed, prefaced, lost, is_live, is_idle};
ghost use Rattle.subchannel.specs.Boards.{HasNumber, numbered, changed_at, passes};
ghost use Rattle.channel_net.specs.Lists.{state_at};
ghost use Rattle.channel_net.specs.Steps.{dial_refusal, dialing_of};

use crate::replies::Dialing;
use grpc_base::{Conn, Moment, Refusal};
use subchannel::Board;

/// The state of a subchannel.
pub fn state_at(board: &Board, sub: u32) -> Option<Conn>
    ensures { result ≡ state_at board.now sub }
{
    let sub = board.at(sub)?;
    Some(sub.state())
}

/// Whether a subchannel is there and not SHUTDOWN.
pub fn is_live_at(board: &Board, sub: u32) -> bool
    ensures { result ≡ passes is_live board.now sub }
{
    match board.at(sub) {
        Some(sub) => !matches!(sub.state(), Conn::Shutdown),
        None => false,
    }
}

/// Whether a subchannel is there and IDLE.
pub fn is_idle_at(board: &Board, sub: u32) -> bool
    ensures { result ≡ passes (λ s. is_idle s.state) board.now sub }
{
    match board.at(sub) {
        Some(sub) => matches!(sub.state(), Conn::Idle),
        None => false,
    }
}

/// Why no dial of a subchannel is under way.
pub fn dial_refusal(board: &Board, sub: u32) -> Option<Refusal>
    ensures { result ≡ dial_refusal (numbered board.now sub) }
{
    match board.at(sub) {
        None => Some(Refusal::NoSuchSub),
        Some(sub) => {
            if sub.is_dialing() {
                None
            } else {
                Some(Refusal::NotDialing)
            }
        }
    }
}

/// Whether a subchannel has this number.
fn has(board: &Board, sub: u32) -> bool
    ensures { result ≡ is_some (numbered board.now sub) }
{
    match board.at(sub) {
        Some(_) => true,
        None => false,
    }
}

/// A policy wishes it connected.
pub fn wish_at(board: &mut Board, sub: u32)
    ensures { board.new ≡ changed_at wished board.old sub }
{
    if has(board, sub) {
        board.wished(sub);
    }
}

/// Its dial is a link.
pub fn up_at(board: &mut Board, sub: u32)
    ensures { board.new ≡ changed_at linked_up board.old sub }
{
    if has(board, sub) {
        let _answer = board.up(sub);
    }
}

/// Its dial failed.
pub fn fail_at(board: &mut Board, sub: u32)
    ensures { board.new ≡ changed_at failed board.old sub }
{
    if has(board, sub) {
        board.failed(sub);
    }
}

/// The server's first SETTINGS came on its link.
pub fn ready_at(board: &mut Board, sub: u32)
    ensures { board.new ≡ changed_at prefaced board.old sub }
{
    if has(board, sub) {
        board.ready(sub);
    }
}

/// Its link is lost, broken or retiring.
pub fn lose_at(board: &mut Board, sub: u32)
    ensures { board.new ≡ changed_at lost board.old sub }
{
    if has(board, sub) {
        board.lost(sub);
    }
}

/// Takes the dial of a subchannel; None exactly where it has none to be taken.
pub fn dial_at(board: &mut Board, sub: u32, moment: Moment, word: u64) -> Option<Dialing>
    ensures after { board.new ≡ changed_at (dialed moment word) board.old sub }
    ensures answer { result ≡ dialing_of moment word sub (numbered board.old sub) }
{
    if has(board, sub) {
        dial_there(board, sub, moment, word)
    } else {
        None
    }
}

fn dial_there(board: &mut Board, sub: u32, moment: Moment, word: u64) -> Option<Dialing>
    requires { HasNumber board.old sub }
    ensures after { board.new ≡ changed_at (dialed moment word) board.old sub }
    ensures answer { result ≡ dialing_of moment word sub (numbered board.old sub) }
{
    let chosen = board.at(sub)?;
    let address = chosen.address();
    let drew = chosen.dials() > 0;
    match board.dial(sub, moment.nanos(), word) {
        Ok(until) => Some(Dialing {
            sub,
            address,
            until,
            drew,
        }),
        Err(_) => None,
    }
}
