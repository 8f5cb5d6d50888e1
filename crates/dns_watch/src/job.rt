// The job that looks a name up and posts the answer to the channel.
ghost use Rattle.std.specs.Prelude.{◌≡◌, ◌≤◌, ℕ, List, Some, IfOk, true, false};
ghost use Rattle.grpc_base.specs.Counts.{one_more};
ghost use Rattle.grpc_base.specs.Limits.{moment_limit};
ghost use Rattle.grpc_base.specs.declared.event.Event.{Event};
ghost use Rattle.grpc_base.specs.declared.post.Look.TheVariants as look;
ghost use Rattle.grpc_base.specs.declared.post.View.{View};
ghost use Rattle.dns_watch.specs.Turns.{HandleSeen, JobSeen, LooksUp, PostsOne, SearchSeen, ReportsThat, Turns, TurnsIf, TurnsUnless, event_of, is_shut, once_of};

use crate::lookup::is_found;
use crate::{DnsWatch, Looked, Lookup};
use gate_io::{Clock, Draws};
use grpc_base::{BoxedAddresses, Conn, Event, Glance, NoMemory, Octets, Post, PostError, Reply};
use std::alloc::Global;

/// What one turn of a name's job came to.
#[derive(Clone, Copy, Debug, PartialEq, Eq)]
pub enum DnsOnce {
    /// It was not the name's turn.
    Nothing,
    /// The name was looked up, and the answer was posted and not refused.
    Posted,
    /// The channel is shut down.
    Shut,
    /// The post of the answer was refused with this number.
    Refused { refusal: u8 },
    /// The post of the answer failed, or this call found no memory itself.
    Failed(PostError),
}

/// Looks the name up, and notes the answer in the schedule.
fn look_up<L: Lookup, D: Draws>(
    watch: &mut DnsWatch,
    lookup: &mut L,
    moment: u64,
    draws: &mut D,
) -> Looked
    requires { moment ≤ moment_limit }
    ensures { let before : SearchSeen = record { watch = watch.old; lookups = L.lookups lookup.old; faults = L.faults lookup.old; last = L.last lookup.old; words = D.words draws.old } in let after : SearchSeen = record { watch = watch.new; lookups = L.lookups lookup.new; faults = L.faults lookup.new; last = L.last lookup.new; words = D.words draws.new } in LooksUp (L.may_find lookup.old) moment result before after }
{
    let answer = lookup.lookup(watch.name());
    watch.answered(moment, draws.word(), is_found(&answer));
    answer
}

/// The config, shared.
fn share(config: &Option<Octets>) -> Result<Option<Octets>, NoMemory>
    ensures { IfOk result (λ c. c ≡ config.now) }
{
    match config {
        Some(config) => Ok(Some(config.share()?)),
        None => Ok(None),
    }
}

/// The event for the channel that an answer is.
fn event_of(alloc: Global, answer: Looked, config: &Option<Octets>) -> Result<Event, NoMemory>
    ensures { IfOk result (λ e. e ≡ event_of answer config.now) }
{
    match answer {
        Looked::Found(addresses) => {
            let addresses = BoxedAddresses::new(alloc, addresses)?;
            let config = share(config)?;
            Ok(Event::Resolved { addresses, config })
        }
        Looked::Failed => Ok(Event::ResolveFailed),
    }
}

/// The job's answer, by what came of its post.
fn once_of(came: &Result<Reply, PostError>) -> DnsOnce
    ensures { result ≡ once_of came.now }
{
    match came {
        Ok(Reply::Refused { refusal }) => DnsOnce::Refused {
            refusal: refusal.number(),
        },
        Ok(_) => DnsOnce::Posted,
        Err(error) => DnsOnce::Failed(*error),
    }
}

/// Posts an answer to the channel.
fn report<P: Post>(alloc: Global, post: &mut P, answer: Looked, config: &Option<Octets>) -> DnsOnce
    ensures reported { let before : HandleSeen = record { made = P.made post.old; errors = P.errors post.old; last = P.last_error post.old } in let after : HandleSeen = record { made = P.made post.new; errors = P.errors post.new; last = P.last_error post.new } in ReportsThat (event_of answer config.now) before after result }
    ensures looks { (P.looks post.new ≡ P.looks post.old) × (P.last_look post.new ≡ P.last_look post.old) }
    ensures share { P.share post.new ≡ P.share post.old }
{
    match event_of(alloc, answer, config) {
        Ok(event) => {
            let came = post.post(event);
            once_of(&came)
        }
        Err(NoMemory) => DnsOnce::Failed(PostError::NoMemory { spent: false }),
    }
}

fn is_shut(state: Conn) -> bool
    ensures { result ≡ is_shut state }
{
    matches!(state, Conn::Shutdown)
}

/// Looks at the channel once. Where it is not shut down and the name's turn has come, looks the name up and posts the
/// answer, as Resolved with its addresses and the config or as ResolveFailed. Nothing else is posted.
pub fn dns_once<P: Post + Glance, L: Lookup, C: Clock, D: Draws>(
    alloc: Global,
    post: &mut P,
    watch: &mut DnsWatch,
    lookup: &mut L,
    clock: &C,
    draws: &mut D,
    config: &Option<Octets>,
) -> DnsOnce
    ensures turn { let before : JobSeen = record { handle = record { made = P.made post.old; errors = P.errors post.old; last = P.last_error post.old }; search = record { watch = watch.old; lookups = L.lookups lookup.old; faults = L.faults lookup.old; last = L.last lookup.old; words = D.words draws.old } } in let after : JobSeen = record { handle = record { made = P.made post.new; errors = P.errors post.new; last = P.last_error post.new }; search = record { watch = watch.new; lookups = L.lookups lookup.new; faults = L.faults lookup.new; last = L.last lookup.new; words = D.words draws.new } } in (view : View) × (P.last_look post.new ≡ Some (look.Glance view)) × Turns view (C.may_give clock.now) (L.may_find lookup.old) config.now before after result }
    ensures looks { P.looks post.new ≡ one_more (P.looks post.old) }
    ensures share { P.share post.new ≡ P.share post.old }
{
    let view = post.glance();
    if is_shut(view.state) {
        return DnsOnce::Shut;
    }
    let moment = clock.now();
    if !watch.turn(moment, view.wants_resolution) {
        return DnsOnce::Nothing;
    }
    let answer = look_up(watch, lookup, moment, draws);
    report(alloc, post, answer, config)
}
