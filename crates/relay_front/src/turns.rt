// One turn of a connection: what is asked is posted, and what came of its calls is given.
ghost use Rattle.std.specs.Prelude.{◌≡◌, Ok};
ghost use Rattle.live_pump.specs.Pumps.{HandleSeen};
ghost use Rattle.relay_calls.specs.Posting.{Eyes, ReportsThat, eyes_of};
ghost use Rattle.relay_front.specs.Turns.{GivesAfter, GivesAll, ServesAsks, ReportsTurn, TurnsTo};

use crate::relay_core::RelayCore;
use crate::turned::{RelayTurn, answer_of, turn_of};
use grpc_base::{Glance, Post};
use relay_calls::CallsFault;
use relay_connection::{RelayAsk, RelayFault};

/// Takes once of each call that is open and for which something has come, and gives its stream what came.
fn take_all<P: Post + Glance>(post: &mut P, core: &mut RelayCore) -> Result<(), CallsFault>
    ensures given { let eyes : Eyes P = eyes_of P.made P.errors P.last_error P.looks P.last_look in GivesAll eyes core.old post.old core.new post.new result }
    ensures reports_that { let before : HandleSeen = record { made = P.made post.old; errors = P.errors post.old; last = P.last_error post.old } in let after : HandleSeen = record { made = P.made post.new; errors = P.errors post.new; last = P.last_error post.new } in ReportsThat before after result }
    ensures share { P.share post.new ≡ P.share post.old }
{
    let mut place = 0;
    while place < core.count() {
        core.take_at(post, place)?;
        place += 1;
    }
    core.settle();
    Ok(())
}

/// Gives the streams what came of their calls.
fn give_all<P: Post + Glance>(post: &mut P, core: &mut RelayCore) -> RelayTurn
    ensures given { let eyes : Eyes P = eyes_of P.made P.errors P.last_error P.looks P.last_look in GivesAfter eyes core.old post.old (Ok tt) core.new post.new result }
    ensures reports_that { let before : HandleSeen = record { made = P.made post.old; errors = P.errors post.old; last = P.last_error post.old } in let after : HandleSeen = record { made = P.made post.new; errors = P.errors post.new; last = P.last_error post.new } in ReportsTurn before after result }
    ensures share { P.share post.new ≡ P.share post.old }
{
    let came = take_all(post, core);
    answer_of(came)
}

/// Posts asks after those that wait, and gives the streams what came of their calls.
fn serve_asks<P: Post + Glance>(
    post: &mut P,
    core: &mut RelayCore,
    asks: Vec<RelayAsk>,
) -> RelayTurn
    ensures serves { let eyes : Eyes P = eyes_of P.made P.errors P.last_error P.looks P.last_look in ServesAsks eyes core.old post.old asks.items core.new post.new result }
    ensures reports_that { let before : HandleSeen = record { made = P.made post.old; errors = P.errors post.old; last = P.last_error post.old } in let after : HandleSeen = record { made = P.made post.new; errors = P.errors post.new; last = P.last_error post.new } in ReportsTurn before after result }
    ensures share { P.share post.new ≡ P.share post.old }
{
    match core.post_asks(post, asks) {
        Ok(()) => give_all(post, core),
        Err(fault) => turn_of(fault),
    }
}

/// One turn of a connection. The piece is passed to it; an empty one means that nothing came. The asks that wait are posted, and then the
/// new ones, in order. Then one Take is posted for each call that is open and for which something has come, and its stream is given the
/// head, the message or the end.
///
/// | Answer | Comes |
/// |---|---|
/// | Broken | where a piece before broke the protocol; nothing is posted |
/// | Gone | where a Begin was refused, since the channel was shut down; each other refusal is passed over |
/// | Failed | where a post answered this error |
/// | NoMemory | where memory was wanting |
/// | Going | else |
pub fn relay_turn<P: Post + Glance>(post: &mut P, core: &mut RelayCore, piece: &[u8]) -> RelayTurn
    ensures turns { let eyes : Eyes P = eyes_of P.made P.errors P.last_error P.looks P.last_look in TurnsTo eyes core.old post.old piece.now core.new post.new result }
    ensures reports_that { let before : HandleSeen = record { made = P.made post.old; errors = P.errors post.old; last = P.last_error post.old } in let after : HandleSeen = record { made = P.made post.new; errors = P.errors post.new; last = P.last_error post.new } in ReportsTurn before after result }
    ensures share { P.share post.new ≡ P.share post.old }
{
    match core.arrived(piece) {
        Ok(asks) => serve_asks(post, core, asks),
        Err(RelayFault::Broken { code }) => RelayTurn::Broken { code },
        Err(RelayFault::NoMemory) => RelayTurn::NoMemory,
        Err(RelayFault::RoomTooSmall) => unreachable!(),
    }
}
