// One turn of one link that a worker keeps open.
ghost use Rattle.std.specs.Prelude.{◌≡◌, ◌≤◌, ℕ, true, false, Some, All, length};
ghost use Rattle.grpc_base.specs.Counts.{one_more};
ghost use Rattle.grpc_base.specs.declared.tender.Tend.{Tend};
ghost use Rattle.live_pump.specs.Pumps.{HandleSeen, OutSeen};
ghost use Rattle.live_pump.specs.Runs.{Closes, ClosesUnless, Eyes, PumpsLink, TurnsLink, eyes_of};
ghost use Rattle.live_pump.specs.Workers.{HasNotFallen, ReportsThat, TendsTo, is_going};
ghost use Rattle.live_pump.specs.declared.link_turn.OpenLink.{OpenLink};

use crate::Pumped;
use crate::pumped::post_to;
use crate::pumps::{read_link, send_link};
use gate_io::{Clock, LinkIn, LinkOut, PollDelay};
use grpc_base::{Event, Glance, Post, Tend, Tender};
use std::alloc::Global;

/// A link that a worker keeps open.
#[derive(Debug, Drop)]
pub(crate) struct OpenLink<I, O> {
    pub link: u32,
    pub input: I,
    pub output: O,
}

/// Asks the tender once about a link, and posts a Ping or LinkLost exactly where it says so.
fn tend_link<P: Post, C: Clock, T: Tender>(
    post: &mut P,
    clock: &C,
    tender: &mut T,
    link: u32,
) -> Pumped
    ensures posted { let before : HandleSeen = record { made = P.made post.old; errors = P.errors post.old; last = P.last_error post.old } in let after : HandleSeen = record { made = P.made post.new; errors = P.errors post.new; last = P.last_error post.new } in (moment : ℕ) × (answer : Tend) × C.may_give clock.now moment × (T.last_turn tender.new ≡ Some (record { link = link; moment = moment; answer = answer })) × TendsTo link answer before after result }
    ensures turns { T.turns tender.new ≡ one_more (T.turns tender.old) }
    ensures looks { (P.looks post.new ≡ P.looks post.old) × (P.last_look post.new ≡ P.last_look post.old) }
    ensures reports_that { let before : HandleSeen = record { made = P.made post.old; errors = P.errors post.old; last = P.last_error post.old } in let after : HandleSeen = record { made = P.made post.new; errors = P.errors post.new; last = P.last_error post.new } in ReportsThat before after result }
    ensures share { P.share post.new ≡ P.share post.old }
{
    match tender.turn(link, clock.now()) {
        Tend::Nothing => Pumped::Going,
        Tend::Ping { word } => post_to(post, Event::Ping { link, word }, Pumped::Going),
        Tend::Lost => post_to(post, Event::LinkLost { link }, Pumped::Lost),
    }
}

/// Reports to the tender that bytes came on a link.
fn notify_tender<C: Clock, T: Tender>(clock: &C, tender: &mut T, link: u32, came: bool)
    ensures { (T.turns tender.new ≡ T.turns tender.old) × (T.last_turn tender.new ≡ T.last_turn tender.old) }
{
    if came {
        tender.heard(link, clock.now());
    }
}

/// Writes what the channel has for a link, reads it once, reports to the tender of bytes that came, and asks it.
fn pump_link<P: Post + Glance, I: LinkIn, O: LinkOut, C: Clock, T: Tender>(
    alloc: Global,
    post: &mut P,
    clock: &C,
    tender: &mut T,
    poll_delay: &mut PollDelay,
    kept: &mut OpenLink<I, O>,
) -> Pumped
    ensures looks { HasNotFallen (P.looks post.old) (P.looks post.new) }
    ensures reports_that { let before : HandleSeen = record { made = P.made post.old; errors = P.errors post.old; last = P.last_error post.old } in let after : HandleSeen = record { made = P.made post.new; errors = P.errors post.new; last = P.last_error post.new } in ReportsThat before after result }
    ensures pumped { let eyes : Eyes P T I O = eyes_of P.made P.errors P.last_error P.last_look T.turns T.last_turn I.left I.faults I.quiet O.taken O.faults O.closed in PumpsLink eyes (record { post = post.old; tender = tender.old }) kept.old (record { post = post.new; tender = tender.new }) kept.new result }
    ensures share { P.share post.new ≡ P.share post.old }
{
    let link = kept.link;
    let wrote = send_link(post, poll_delay, &mut kept.output, link);
    if !wrote.is_going() {
        return wrote;
    }
    let (read, came) = read_link(alloc, post, poll_delay, &mut kept.input, link);
    notify_tender(clock, tender, link, came);
    if !read.is_going() {
        return read;
    }
    tend_link(post, clock, tender, link)
}

/// A turn of a link. Unless the link goes on, it is closed.
pub(crate) fn turn_link<P: Post + Glance, I: LinkIn, O: LinkOut, C: Clock, T: Tender>(
    alloc: Global,
    post: &mut P,
    clock: &C,
    tender: &mut T,
    poll_delay: &mut PollDelay,
    kept: &mut OpenLink<I, O>,
) -> Pumped
    ensures looks { HasNotFallen (P.looks post.old) (P.looks post.new) }
    ensures reports_that { let before : HandleSeen = record { made = P.made post.old; errors = P.errors post.old; last = P.last_error post.old } in let after : HandleSeen = record { made = P.made post.new; errors = P.errors post.new; last = P.last_error post.new } in ReportsThat before after result }
    ensures closed { is_going result ≡ false → O.closed kept.new.output ≡ true }
    ensures turned { let eyes : Eyes P T I O = eyes_of P.made P.errors P.last_error P.last_look T.turns T.last_turn I.left I.faults I.quiet O.taken O.faults O.closed in TurnsLink eyes (record { post = post.old; tender = tender.old }) kept.old (record { post = post.new; tender = tender.new }) kept.new result }
    ensures share { P.share post.new ≡ P.share post.old }
{
    let answer = pump_link(alloc, post, clock, tender, poll_delay, kept);
    close_unless(answer.is_going(), kept);
    answer
}

/// Closes a link.
pub(crate) fn close_link<I: LinkIn, O: LinkOut>(kept: &mut OpenLink<I, O>)
    ensures { Closes (λ (o : O). let seen : OutSeen = record { taken = O.taken o; faults = O.faults o } in seen) O.closed kept.old kept.new }
{
    kept.output.close();
}

/// Closes a link unless it goes on.
fn close_unless<I: LinkIn, O: LinkOut>(going: bool, kept: &mut OpenLink<I, O>)
    ensures { ClosesUnless (λ (o : O). let seen : OutSeen = record { taken = O.taken o; faults = O.faults o } in seen) O.closed going kept.old kept.new }
{
    if going {
        return;
    }
    close_link(kept);
}

/// Closes the links that are left.
pub(crate) fn close_links<I: LinkIn, O: LinkOut>(links: &mut Vec<OpenLink<I, O>>)
    ensures closed { All (λ (k : OpenLink I O). O.closed k.output ≡ true) links.new.items }
    ensures same_many { length links.new.items ≡ length links.old.items }
{
    for left in links.iter_mut() {
        close_link(left);
    }
}
