// The worker that keeps links open and moves their bytes.
ghost use Rattle.std.specs.Prelude.{◌≡◌, ◌≤◌, ◌<◌, ◌⊎◌, ◌++◌, ◌∷◌, ◌+◌, [], ℕ, List, Some, None, Option, OnOk, OnErr, IfOk, IfErr, MatchResult, true, length, take, drop};
ghost use Rattle.grpc_base.specs.Counts.{Rises};
ghost use Rattle.grpc_base.specs.declared.event.Conn.TheVariants as conn;
ghost use Rattle.grpc_base.specs.declared.post.PostError.{PostError};
ghost use Rattle.live_pump.specs.Prefixes.{ArrivesBefore};
ghost use Rattle.live_pump.specs.Kinds.{AddsOnly, IsOfLinks};
ghost use Rattle.live_pump.specs.Pumps.{HandleSeen, OutSeen};
ghost use Rattle.live_pump.specs.Runs.{Closes, DialsLink, Eyes, IsCaused, RoundOf, RunsOn, RunsTo, Site, TurnsLinks, eyes_of, is_shut};
ghost use Rattle.live_pump.specs.Workers.{Ends, HasNotFallen, Parts, Rounds};
ghost use Rattle.live_pump.specs.declared.link_turn.OpenLink.{OpenLink};

use crate::link_turn::{OpenLink, close_link, close_links, turn_link};
use crate::{DialTurn, Pumped, dial_once, tick_if_due};
use gate_io::{Clock, Dialer, LinkIn, LinkOut, Pause, PollDelay};
use grpc_base::{Conn, Glance, NoMemory, Post, PostError, Tender};
use std::alloc::Global;
use std::sync::Wait;

/// A worker found no memory itself.
const NO_MEMORY: PostError = PostError::NoMemory { spent: false };

/// Keeps a link that was opened, and notifies the tender of it. On out of memory it is closed, or left to be closed.
fn keep_link<I: LinkIn, O: LinkOut, C: Clock, T: Tender>(
    clock: &C,
    tender: &mut T,
    links: &mut Vec<OpenLink<I, O>>,
    opened: OpenLink<I, O>,
) -> Result<(), NoMemory>
    ensures kept { OnOk result (links.new.items ≡ links.old.items ++ opened ∷ []) }
    ensures unkept { OnErr result ((links.new.items ≡ links.old.items ++ opened ∷ []) ⊎ ((links.new.items ≡ links.old.items) × (closed : OpenLink I O) × Closes (λ (o : O). let seen : OutSeen = record { taken = O.taken o; faults = O.faults o } in seen) O.closed opened closed)) }
    ensures turns { (T.turns tender.new ≡ T.turns tender.old) × (T.last_turn tender.new ≡ T.last_turn tender.old) }
{
    let link = opened.link;
    if let Err(failed) = links.push(opened) {
        let mut unkept = failed.value;
        close_link(&mut unkept);
        return Err(NoMemory);
    }
    tender.opened(link, clock.now())
}

/// Dials what is to be dialled, and keeps the link.
fn dial_part<P: Post + Glance, N: Dialer, C: Clock, T: Tender>(
    post: &mut P,
    dialer: &mut N,
    clock: &C,
    tender: &mut T,
    links: &mut Vec<OpenLink<N::In, N::Out>>,
) -> Option<PostError>
    ensures part { let before : HandleSeen = record { made = P.made post.old; errors = P.errors post.old; last = P.last_error post.old } in let after : HandleSeen = record { made = P.made post.new; errors = P.errors post.new; last = P.last_error post.new } in Parts before after result }
    ensures looks { HasNotFallen (P.looks post.old) (P.looks post.new) }
    ensures dialled { let eyes : Eyes P T N.In N.Out = eyes_of P.made P.errors P.last_error P.last_look T.turns T.last_turn N.In.LinkIn.left N.In.LinkIn.faults N.In.LinkIn.quiet N.Out.LinkOut.taken N.Out.LinkOut.faults N.Out.LinkOut.closed in DialsLink eyes (λ (d : N). record { coming = N.coming d; faults = N.faults d }) (record { site = record { post = post.old; tender = tender.old }; dialer = dialer.old; links = links.old.items }) (record { site = record { post = post.new; tender = tender.new }; dialer = dialer.new; links = links.new.items }) result }
    ensures share { P.share post.new ≡ P.share post.old }
{
    match dial_once(post, dialer) {
        DialTurn::Opened {
            link,
            input,
            output,
        } => {
            let opened = OpenLink {
                link,
                input,
                output,
            };
            match keep_link(clock, tender, links, opened) {
                Ok(()) => None,
                Err(NoMemory) => Some(NO_MEMORY),
            }
        }
        DialTurn::Failed(error) => Some(error),
        DialTurn::Nothing | DialTurn::Refused { .. } | DialTurn::Gone { .. } => None,
    }
}

/// A turn of the link at a place. It is given up where it is lost or gone. Gives how many links were passed: one that
/// goes on.
fn turn_at<P: Post + Glance, I: LinkIn, O: LinkOut, C: Clock, T: Tender>(
    alloc: Global,
    post: &mut P,
    clock: &C,
    tender: &mut T,
    poll_delay: &mut PollDelay,
    links: &mut Vec<OpenLink<I, O>>,
    at: usize,
) -> Result<usize, PostError>
    requires { at < length links.old.items }
    ensures part { let before : HandleSeen = record { made = P.made post.old; errors = P.errors post.old; last = P.last_error post.old } in let after : HandleSeen = record { made = P.made post.new; errors = P.errors post.new; last = P.last_error post.new } in MatchResult result (λ _. Parts before after None) (λ error. Parts before after (Some error)) }
    ensures looks { HasNotFallen (P.looks post.old) (P.looks post.new) }
    ensures passed { IfOk result (λ passed. (at + passed ≤ length links.new.items) × (length links.new.items + 1 ≡ length links.old.items + passed)) }
    ensures turned { IfOk result (λ passed. (after : Site P T) (left : List (OpenLink I O)) (end : Option PostError) → let eyes : Eyes P T I O = eyes_of P.made P.errors P.last_error P.last_look T.turns T.last_turn I.left I.faults I.quiet O.taken O.faults O.closed in TurnsLinks eyes (take (at + passed) links.new.items) (record { post = post.new; tender = tender.new }) (drop (at + passed) links.new.items) after left end → TurnsLinks eyes (take at links.old.items) (record { post = post.old; tender = tender.old }) (drop at links.old.items) after left end) }
    ensures ended { IfErr result (λ error. let eyes : Eyes P T I O = eyes_of P.made P.errors P.last_error P.last_look T.turns T.last_turn I.left I.faults I.quiet O.taken O.faults O.closed in TurnsLinks eyes (take at links.old.items) (record { post = post.old; tender = tender.old }) (drop at links.old.items) (record { post = post.new; tender = tender.new }) links.new.items (Some error)) }
    ensures share { P.share post.new ≡ P.share post.old }
{
    let kept = &mut links[at];
    let answer = turn_link(alloc, post, clock, tender, poll_delay, kept);
    if answer.is_given_up() {
        drop(links.remove(at));
        return Ok(0);
    }
    match answer.error() {
        Some(error) => Err(error),
        None => Ok(1),
    }
}

/// A turn of each link; those that are lost or gone are given up.
fn links_part<P: Post + Glance, I: LinkIn, O: LinkOut, C: Clock, T: Tender>(
    alloc: Global,
    post: &mut P,
    clock: &C,
    tender: &mut T,
    poll_delay: &mut PollDelay,
    links: &mut Vec<OpenLink<I, O>>,
) -> Option<PostError>
    ensures part { let before : HandleSeen = record { made = P.made post.old; errors = P.errors post.old; last = P.last_error post.old } in let after : HandleSeen = record { made = P.made post.new; errors = P.errors post.new; last = P.last_error post.new } in Parts before after result }
    ensures looks { HasNotFallen (P.looks post.old) (P.looks post.new) }
    ensures turned { let eyes : Eyes P T I O = eyes_of P.made P.errors P.last_error P.last_look T.turns T.last_turn I.left I.faults I.quiet O.taken O.faults O.closed in TurnsLinks eyes [] (record { post = post.old; tender = tender.old }) links.old.items (record { post = post.new; tender = tender.new }) links.new.items result }
    ensures share { P.share post.new ≡ P.share post.old }
{
    let mut at = 0;
    while at < links.len() {
        match turn_at(alloc, post, clock, tender, poll_delay, links, at) {
            Ok(passed) => at += passed,
            Err(error) => return Some(error),
        }
    }
    None
}

fn is_shut(state: Conn) -> bool
    ensures value { result ≡ is_shut state }
    ensures shut { result ≡ true → state ≡ conn.Shutdown }
{
    matches!(state, Conn::Shutdown)
}

/// Pauses, the longer nothing was found lately; where the dialer can wait, until bytes come, until there is news, or until a moment at which
/// something is due. Right after a round that found something it does not. A round without links found nothing.
fn rest<N: Dialer, C: Clock>(
    dialer: &N,
    clock: &C,
    poll_delay: &mut PollDelay,
    links: usize,
    due: Option<u64>,
) {
    if links == 0 {
        poll_delay.miss();
    }
    let pause = if poll_delay.takes_find() {
        Pause::None
    } else {
        poll_delay.pause()
    };
    if !dialer.wait(pause, due) {
        clock.pause(pause);
    }
}

/// One round: a look, a dial, a turn of each link, and a tick.
fn round<P: Post + Glance, N: Dialer, C: Clock, T: Tender>(
    alloc: Global,
    post: &mut P,
    dialer: &mut N,
    clock: &C,
    tender: &mut T,
    poll_delay: &mut PollDelay,
    links: &mut Vec<OpenLink<N::In, N::Out>>,
) -> Option<Pumped>
    ensures round { let before : HandleSeen = record { made = P.made post.old; errors = P.errors post.old; last = P.last_error post.old } in let after : HandleSeen = record { made = P.made post.new; errors = P.errors post.new; last = P.last_error post.new } in Rounds before after (P.last_look post.new) result }
    ensures looks { Rises (P.looks post.old) (P.looks post.new) }
    ensures parts { let eyes : Eyes P T N.In N.Out = eyes_of P.made P.errors P.last_error P.last_look T.turns T.last_turn N.In.LinkIn.left N.In.LinkIn.faults N.In.LinkIn.quiet N.Out.LinkOut.taken N.Out.LinkOut.faults N.Out.LinkOut.closed in RoundOf eyes (λ (d : N). record { coming = N.coming d; faults = N.faults d }) (C.may_give clock.now) (record { site = record { post = post.old; tender = tender.old }; dialer = dialer.old; links = links.old.items }) (record { site = record { post = post.new; tender = tender.new }; dialer = dialer.new; links = links.new.items }) result }
    ensures share { P.share post.new ≡ P.share post.old }
{
    let view = post.glance();
    if is_shut(view.state) {
        return Some(Pumped::Shut);
    }
    if let Some(error) = dial_part(post, dialer, clock, tender, links) {
        return Some(Pumped::Failed(error));
    }
    if let Some(error) = links_part(alloc, post, clock, tender, poll_delay, links) {
        return Some(Pumped::Failed(error));
    }
    rest(dialer, clock, poll_delay, links.len(), view.next);
    let ticked = tick_if_due(post, clock);
    match ticked {
        Ok(_) => None,
        Err(error) => Some(Pumped::Failed(error)),
    }
}

/// Makes rounds until the channel is shut down or an error comes. The links that are left are closed.
fn make_rounds<W: Wait, P: Post + Glance, N: Dialer, C: Clock, T: Tender>(
    rt: &W,
    alloc: Global,
    post: &mut P,
    dialer: &mut N,
    clock: &C,
    tender: &mut T,
    links: &mut Vec<OpenLink<N::In, N::Out>>,
) -> Pumped
    ensures end { let before : HandleSeen = record { made = P.made post.old; errors = P.errors post.old; last = P.last_error post.old } in let after : HandleSeen = record { made = P.made post.new; errors = P.errors post.new; last = P.last_error post.new } in Ends before after (P.last_look post.new) result }
    ensures looks { Rises (P.looks post.old) (P.looks post.new) }
    ensures run { let eyes : Eyes P T N.In N.Out = eyes_of P.made P.errors P.last_error P.last_look T.turns T.last_turn N.In.LinkIn.left N.In.LinkIn.faults N.In.LinkIn.quiet N.Out.LinkOut.taken N.Out.LinkOut.faults N.Out.LinkOut.closed in RunsTo eyes (λ (d : N). record { coming = N.coming d; faults = N.faults d }) (C.may_give clock.now) (record { site = record { post = post.old; tender = tender.old }; dialer = dialer.old; links = links.old.items }) (record { post = post.new; tender = tender.new }) dialer.new result }
    ensures left { links.new.items ≡ [] }
    ensures share { P.share post.new ≡ P.share post.old }
{
    let end = run_rounds(rt, alloc, post, dialer, clock, tender, links);
    close_links(links);
    links.clear();
    end
}

/// The rounds alone.
fn run_rounds<W: Wait, P: Post + Glance, N: Dialer, C: Clock, T: Tender>(
    rt: &W,
    alloc: Global,
    post: &mut P,
    dialer: &mut N,
    clock: &C,
    tender: &mut T,
    links: &mut Vec<OpenLink<N::In, N::Out>>,
) -> Pumped
    ensures end { let before : HandleSeen = record { made = P.made post.old; errors = P.errors post.old; last = P.last_error post.old } in let after : HandleSeen = record { made = P.made post.new; errors = P.errors post.new; last = P.last_error post.new } in Ends before after (P.last_look post.new) result }
    ensures looks { Rises (P.looks post.old) (P.looks post.new) }
    ensures run { let eyes : Eyes P T N.In N.Out = eyes_of P.made P.errors P.last_error P.last_look T.turns T.last_turn N.In.LinkIn.left N.In.LinkIn.faults N.In.LinkIn.quiet N.Out.LinkOut.taken N.Out.LinkOut.faults N.Out.LinkOut.closed in RunsOn eyes (λ (d : N). record { coming = N.coming d; faults = N.faults d }) (C.may_give clock.now) (record { site = record { post = post.old; tender = tender.old }; dialer = dialer.old; links = links.old.items }) (record { site = record { post = post.new; tender = tender.new }; dialer = dialer.new; links = links.new.items }) result }
    ensures share { P.share post.new ≡ P.share post.old }
{
    let mut poll_delay = PollDelay::new();
    for _ in rt.forever() {
        if let Some(end) = round(alloc, post, dialer, clock, tender, &mut poll_delay, links) {
            return end;
        }
    }
    unreachable!()
}

/// Keeps links open for a channel: in rounds it looks at the channel, dials, writes and reads each of its links,
/// asks the tender about each, and ticks. Its reads wait for nothing: the longer no bytes come, the longer it pauses
/// between rounds, up to 5 ms, where the dialer can, until bytes come. It ends with Shut where the channel was shut down when it looked, and with
/// Failed where a post failed or it found no memory itself. It closes a link that is lost or gone, and at its end
/// those that are left. It may never return.
pub fn net_worker<W: Wait, P: Post + Glance, N: Dialer, C: Clock, T: Tender>(
    rt: &W,
    alloc: Global,
    post: &mut P,
    dialer: &mut N,
    clock: &C,
    tender: &mut T,
) -> Pumped
    ensures end { let before : HandleSeen = record { made = P.made post.old; errors = P.errors post.old; last = P.last_error post.old } in let after : HandleSeen = record { made = P.made post.new; errors = P.errors post.new; last = P.last_error post.new } in Ends before after (P.last_look post.new) result }
    ensures looks { Rises (P.looks post.old) (P.looks post.new) }
    ensures run { let eyes : Eyes P T N.In N.Out = eyes_of P.made P.errors P.last_error P.last_look T.turns T.last_turn N.In.LinkIn.left N.In.LinkIn.faults N.In.LinkIn.quiet N.Out.LinkOut.taken N.Out.LinkOut.faults N.Out.LinkOut.closed in RunsTo eyes (λ (d : N). record { coming = N.coming d; faults = N.faults d }) (C.may_give clock.now) (record { site = record { post = post.old; tender = tender.old }; dialer = dialer.old; links = [] }) (record { post = post.new; tender = tender.new }) dialer.new result }
    ensures causes { let eyes : Eyes P T N.In N.Out = eyes_of P.made P.errors P.last_error P.last_look T.turns T.last_turn N.In.LinkIn.left N.In.LinkIn.faults N.In.LinkIn.quiet N.Out.LinkOut.taken N.Out.LinkOut.faults N.Out.LinkOut.closed in IsCaused eyes (eyes.handle post.old) (eyes.handle post.new) }
    ensures prefixes { let before : HandleSeen = record { made = P.made post.old; errors = P.errors post.old; last = P.last_error post.old } in let after : HandleSeen = record { made = P.made post.new; errors = P.errors post.new; last = P.last_error post.new } in ArrivesBefore (N.coming dialer.old) before after }
    ensures kinds { AddsOnly IsOfLinks (P.made post.old) (P.made post.new) }
    ensures share { P.share post.new ≡ P.share post.old }
{
    let mut links = Vec::new(alloc);
    make_rounds(rt, alloc, post, dialer, clock, tender, &mut links)
}
