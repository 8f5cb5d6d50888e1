// The entry that is being made: it opens, is answered, settles, and joins the journal.
ghost use Rattle.std.specs.Prelude.{◌+◌, ◌≡◌, IfOk, OnOk, Some, if◌then◌else◌, map, max, option_map, unwrap_or};
ghost use Rattle.grpc_base.specs.declared.event.Reply.TheVariants as reply;
ghost use Rattle.session_actions.specs.Closing.{entry_made, noted_gone};
ghost use Rattle.session_actions.specs.Entries.{drawn_if, opened, replied, settling, with_turn};
ghost use Rattle.session_actions.specs.declared.entry.OpenEntry.{OpenEntry};
ghost use Rattle.session_actions.specs.declared.entry.Stage.TheVariants as stage;

use grpc_base::{Conn, Entry, Event, Items, Moment, NoMemory, Reply};
use session_actions::{Link, OpenEntry, Seen, Stage, Turn};
use slow_attempts::{entry, last_moment, sum};
use slow_net::{channel_state, is_gone};
use std::alloc::Global;
use std::mem;

/// The later of two moments.
fn later(first: Moment, second: Moment) -> Moment
    ensures { result ≡ max first second }
{
    if first.nanos() < second.nanos() {
        second
    } else {
        first
    }
}

/// An event is posted: an entry opens.
pub fn opened(seen: &mut Seen, posted: Moment, word: u64, event: Event)
    ensures { seen.new ≡ opened posted word event seen.old }
{
    let moment = later(last_moment(seen), posted);
    seen.current = Some(OpenEntry {
        moment,
        word,
        event,
        stage: Stage::Event,
        reply: None,
        drawn: 0,
        turn: None,
    });
}

fn with_reply(current: Option<OpenEntry>, reply: Reply) -> Option<OpenEntry>
    ensures { result ≡ option_map (λ (o : OpenEntry). record o { stage = stage.Replied; reply = Some reply }) current }
{
    match current {
        Some(mut open) => {
            open.stage = Stage::Replied;
            open.reply = Some(reply);
            Some(open)
        }
        None => None,
    }
}

/// The event is answered.
pub fn replied(seen: &mut Seen, reply: Reply)
    ensures { seen.new ≡ replied reply seen.old }
{
    let current = seen.current.take();
    seen.current = with_reply(current, reply);
}

fn with_settling(current: Option<OpenEntry>) -> Option<OpenEntry>
    ensures { result ≡ option_map (λ (o : OpenEntry). record o { stage = stage.Settling }) current }
{
    match current {
        Some(mut open) => {
            open.stage = Stage::Settling;
            Some(open)
        }
        None => None,
    }
}

/// The channel settles.
pub fn settling(seen: &mut Seen)
    ensures { seen.new ≡ settling seen.old }
{
    let current = seen.current.take();
    seen.current = with_settling(current);
}

/// One, or nothing.
fn one_if(draws: bool) -> u64
    ensures { result ≡ (if draws then 1 else 0) }
{
    if draws { 1 } else { 0 }
}

fn with_draw(current: Option<OpenEntry>, draws: bool) -> Result<Option<OpenEntry>, NoMemory>
    ensures { IfOk result (λ c. c ≡ option_map (λ (o : OpenEntry). record o { drawn = o.drawn + (if draws then 1 else 0) }) current) }
{
    match current {
        Some(mut open) => {
            open.drawn = sum(open.drawn, one_if(draws))?;
            Ok(Some(open))
        }
        None => Ok(None),
    }
}

/// One random word more was drawn, or not.
pub fn drawn_if(seen: &mut Seen, draws: bool) -> Result<(), NoMemory>
    ensures { OnOk result (seen.new ≡ drawn_if draws seen.old) }
{
    let current = seen.current.take();
    seen.current = with_draw(current, draws)?;
    Ok(())
}

fn turned(current: Option<OpenEntry>, turn: Option<Turn>) -> Option<OpenEntry>
    ensures { result ≡ option_map (λ (o : OpenEntry). record o { turn = turn }) current }
{
    match current {
        Some(mut open) => {
            open.turn = turn;
            Some(open)
        }
        None => None,
    }
}

/// The last pick request of the pass over the queue is another one, or there is none.
pub fn with_turn(seen: &mut Seen, turn: Option<Turn>)
    ensures { seen.new ≡ with_turn turn seen.old }
{
    let current = seen.current.take();
    seen.current = turned(current, turn);
}

/// A link that is gone by now, and was not before, is gone from this entry on.
fn noted_gone(seen: &Seen, mut link: Link) -> Result<Link, NoMemory>
    ensures { IfOk result (λ l. l ≡ noted_gone seen.now link) }
{
    if link.gone.is_none() && is_gone(&link, seen) {
        link.gone = Some(entry(seen)?);
    }
    Ok(link)
}

fn note_gone(alloc: Global, seen: &Seen, links: Vec<Link>) -> Result<Vec<Link>, NoMemory>
    ensures { IfOk result (λ v. v.items ≡ map (noted_gone seen.now) links.items) }
{
    let mut noted = Vec::new(alloc);
    let mut rest = links.into_iter();
    while let Some(link) = rest.next() {
        noted.push(noted_gone(seen, link)?)?;
    }
    Ok(noted)
}

fn made_entry(current: OpenEntry, state: Conn) -> Entry
    ensures { result ≡ record { moment = current.moment; word = current.word; event = current.event; reply = unwrap_or current.reply reply.Done; state = state } }
{
    let OpenEntry {
        moment,
        word,
        event,
        reply,
        ..
    } = current;
    let reply = match reply {
        Some(reply) => reply,
        None => Reply::Done,
    };
    Entry {
        moment,
        word,
        event,
        reply,
        state,
    }
}

/// The entry joins the journal, with the state of the channel after it.
pub fn entry_made(alloc: Global, seen: &mut Seen) -> Result<(), NoMemory>
    ensures { (o : OpenEntry) → seen.old.current ≡ Some o → OnOk result (seen.new ≡ entry_made o seen.old) }
{
    let state = channel_state(alloc, seen)?;
    let links = mem::replace(&mut seen.links, Items::new(alloc)).into_vec();
    let links = note_gone(alloc, seen, links)?;
    seen.links = Items::of_vec(links);
    let Some(open) = seen.current.take() else {
        return Ok(());
    };
    seen.entries.push(made_entry(open, state))?;
    Ok(())
}
