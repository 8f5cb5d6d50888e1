// What is left to be done once a client's link is over.
ghost use Rattle.std.specs.Prelude.{◌≡◌};
ghost use Rattle.live_pump.specs.Pumps.{HandleSeen};
ghost use Rattle.relay_calls.specs.Posting.{Eyes, eyes_of};
ghost use Rattle.relay_front.specs.Turns.{Closes, ReportsTurn};

use crate::relay_core::RelayCore;
use crate::turned::RelayTurn;
use grpc_base::Post;

/// Posts one Cancel for each call of the connection that was begun, whose end was not given and that was not cancelled, in the order of
/// their Begins. A refusal is passed over. It answers Going, or Failed where a post answered this error.
pub fn relay_close<P: Post>(post: &mut P, core: &mut RelayCore) -> RelayTurn
    ensures closes { let eyes : Eyes P = eyes_of P.made P.errors P.last_error P.looks P.last_look in Closes eyes core.old post.old core.new post.new result }
    ensures reports_that { let before : HandleSeen = record { made = P.made post.old; errors = P.errors post.old; last = P.last_error post.old } in let after : HandleSeen = record { made = P.made post.new; errors = P.errors post.new; last = P.last_error post.new } in ReportsTurn before after result }
    ensures share { P.share post.new ≡ P.share post.old }
{
    match core.give_up(post) {
        Ok(()) => RelayTurn::Going,
        Err(error) => RelayTurn::Failed(error),
    }
}
