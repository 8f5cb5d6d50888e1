// What is taken of one call, and how it is given up.
ghost use Rattle.std.specs.Prelude.{◌≡◌, Ok, true};
ghost use Rattle.live_pump.specs.Pumps.{HandleSeen};
ghost use Rattle.relay_calls.specs.Posting.{Eyes, eyes_of};
ghost use Rattle.relay_calls.specs.Taking.{GaveUp, Gives, GivesUp, TakesIf, TakesOne, ReportsError, item_of, taken};

use crate::call::RelayCall;
use grpc_base::{Event, Glance, Post, PostError, Reply};

/// The head, a message or the end of a call; another reply gives nothing.
fn item_of(reply: Reply) -> Option<Reply>
    ensures { result ≡ item_of reply }
{
    match reply {
        Reply::Head { .. } | Reply::Message { .. } | Reply::End { .. } => Some(reply),
        _ => None,
    }
}

/// The call of which the end was taken gives nothing more.
fn note(call: &mut RelayCall, reply: &Reply)
    ensures { call.new ≡ taken call.old reply.now }
{
    if matches!(reply, Reply::End { .. }) {
        call.is_open = false;
    }
}

/// Takes what a look showed to have come.
fn take_now<P: Post>(post: &mut P, call: &mut RelayCall) -> Result<Option<Reply>, PostError>
    ensures taken { let eyes : Eyes P = eyes_of P.made P.errors P.last_error P.looks P.last_look in TakesIf eyes true call.old post.old call.new post.new result }
    ensures looks { (P.looks post.new ≡ P.looks post.old) × (P.last_look post.new ≡ P.last_look post.old) }
    ensures reports_that { let before : HandleSeen = record { made = P.made post.old; errors = P.errors post.old; last = P.last_error post.old } in let after : HandleSeen = record { made = P.made post.new; errors = P.errors post.new; last = P.last_error post.new } in ReportsError before after result }
    ensures share { P.share post.new ≡ P.share post.old }
{
    let number = call.call;
    let came = post.post(Event::Take { call: number });
    note_taken(call, came)
}

/// What a Take came to.
fn note_taken(
    call: &mut RelayCall,
    came: Result<Reply, PostError>,
) -> Result<Option<Reply>, PostError>
    ensures { Gives call.old came call.new result }
{
    let reply = came?;
    note(call, &reply);
    Ok(item_of(reply))
}

/// Takes once of a call that is open, where a look shows that something has come.
pub(crate) fn take_one<P: Post + Glance>(
    post: &mut P,
    call: &mut RelayCall,
) -> Result<Option<Reply>, PostError>
    ensures taken { let eyes : Eyes P = eyes_of P.made P.errors P.last_error P.looks P.last_look in TakesOne eyes call.old post.old call.new post.new result }
    ensures reports_that { let before : HandleSeen = record { made = P.made post.old; errors = P.errors post.old; last = P.last_error post.old } in let after : HandleSeen = record { made = P.made post.new; errors = P.errors post.new; last = P.last_error post.new } in ReportsError before after result }
    ensures share { P.share post.new ≡ P.share post.old }
{
    if !call.is_open {
        return Ok(None);
    }
    if !post.can_take(call.call) {
        return Ok(None);
    }
    take_now(post, call)
}

/// Gives a call that is open up. A refusal is passed over.
pub(crate) fn give_up<P: Post>(post: &mut P, call: &mut RelayCall) -> Result<(), PostError>
    ensures given_up { let eyes : Eyes P = eyes_of P.made P.errors P.last_error P.looks P.last_look in GivesUp eyes call.old post.old call.new post.new result }
    ensures reports_that { let before : HandleSeen = record { made = P.made post.old; errors = P.errors post.old; last = P.last_error post.old } in let after : HandleSeen = record { made = P.made post.new; errors = P.errors post.new; last = P.last_error post.new } in ReportsError before after result }
    ensures share { P.share post.new ≡ P.share post.old }
{
    if !call.is_open {
        return Ok(());
    }
    let number = call.call;
    let came = post.post(Event::Cancel { call: number });
    note_given_up(call, came)
}

/// What the Cancel of a call that is given up came to.
fn note_given_up(call: &mut RelayCall, came: Result<Reply, PostError>) -> Result<(), PostError>
    ensures { GaveUp call.old came call.new result }
{
    drop(came?);
    call.asking = false;
    call.is_open = false;
    Ok(())
}
