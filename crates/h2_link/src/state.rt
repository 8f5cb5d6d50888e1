// The state of a link after whole frames and calls.
ghost use Rattle.std.specs.Prelude.{◌≡◌, ◌<◌, ◌≤◌, ◌∷◌, [], length, drop, map, OnOk, IfOk, None};
ghost use Rattle.h2_link.specs.Drains.{named};
ghost use Rattle.h2_link.specs.Steps.{with_effect, broke, placed, cut, pinged, sealed_wire};
ghost use Rattle.h2_link.specs.Wire.{blank, block_bytes, fresh_wire};

use crate::block::OpenBlock;
use crate::control::{Control, Controls};
use crate::effect::Effect;
use crate::live::{LiveStream, LiveStreams, StreamNumber, WindowSize};
use crate::news::LinkNews;
use crate::waiting::Waiting;
use grpc_base::{Items, NoMemory};
use h2_hpack::Decoder;
use std::alloc::Global;
use std::marker::Model;

/// The windows at first (RFC 9113, section 6.9.2).
const FIRST_WINDOW: u32 = 65_535;

#[derive(Debug, Drop)]
pub(crate) struct State {
    /// How many bytes the whole frames had.
    pub read: u64,
    /// The code with which the link is broken.
    pub broken: Option<u32>,
    /// Whether the peer's first SETTINGS came.
    pub ready: bool,
    /// Whether GOAWAY came.
    pub retiring: bool,
    pub waiting: Waiting,
    pub live: LiveStreams,
    /// How many streams were opened.
    pub opened: u32,
    /// The peer's SETTINGS_MAX_CONCURRENT_STREAMS.
    pub limit: Option<u32>,
    /// The peer's SETTINGS_INITIAL_WINDOW_SIZE.
    pub initial: WindowSize,
    /// The link's send window.
    pub window: u32,
    pub queue: Controls,
    /// Whether the next header block is to begin with a dynamic table size update.
    pub resizes: bool,
    /// The header block that CONTINUATION is to complete.
    pub block: Option<OpenBlock>,
    pub decoder: Decoder,
    /// The memory in which the next header block is encoded.
    pub encoded: Vec<u8>,
}

impl Model for State {
    ghost use Rattle.h2_link.specs.Wire.{Wire};

    ghost Value = { Wire };

    ghost view = { λ s. record { read = s.read; broken = s.broken; ready = s.ready; retiring = s.retiring; waiting = s.waiting; live = s.live; opened = s.opened; limit = s.limit; initial = s.initial; window = s.window; queue = s.queue; resizes = s.resizes; block = s.block; table = s.decoder } };
}

impl State {
    /// A link on which nothing happened, but that so many bytes were read, and that it may be broken.
    pub(crate) fn blank(alloc: Global, read: u64, broken: Option<u32>) -> State
        ensures { result ≡ blank read broken }
    {
        State {
            read,
            broken,
            ready: false,
            retiring: false,
            waiting: Waiting::new(alloc),
            live: LiveStreams::new(alloc),
            opened: 0,
            limit: None,
            initial: WindowSize::first(),
            window: FIRST_WINDOW,
            queue: Controls::new(alloc),
            resizes: false,
            block: None,
            decoder: Decoder::new(alloc),
            encoded: Vec::new(alloc),
        }
    }

    /// A new link, whose preface is to be sent.
    pub(crate) fn new(alloc: Global) -> Result<State, NoMemory>
        ensures { IfOk result (λ s. s ≡ fresh_wire) }
    {
        let mut state = State::blank(alloc, 0, None);
        state.queue.push(Control::Preface)?;
        Ok(state)
    }

    /// The link is broken with this code: only how far it was read is kept.
    pub(crate) fn break_off(
        &mut self,
        alloc: Global,
        read: u64,
        code: u32,
    ) -> Result<Items<LinkNews>, NoMemory>
        ensures { IfOk result (λ news. (self.new ≡ blank read (Some code)) × (news ≡ LinkNews.Broken code ∷ [])) }
    {
        *self = State::blank(alloc, read, Some(code));
        one_news(alloc, LinkNews::Broken { code })
    }

    /// What became of the stream at a place.
    pub(crate) fn apply_effect(
        &mut self,
        place: usize,
        number: StreamNumber,
        effect: Effect,
    ) -> Result<(), NoMemory>
        requires { place < length self.old.live }
        ensures { OnOk result (self.new ≡ with_effect self.old place number effect) }
    {
        match effect {
            Effect::Continues(stream) => self.live.put(place, stream),
            Effect::Ends(None) => self.live.remove(place),
            Effect::Ends(Some(code)) | Effect::Faults(code) => {
                self.live.remove(place);
                self.queue.reset(number, code)?;
            }
        }
        Ok(())
    }

    /// A tag waits for a stream.
    pub(crate) fn place(&mut self, tag: u64) -> Result<(), NoMemory>
        ensures { OnOk result (self.new ≡ placed self.old tag) }
    {
        self.waiting.insert(tag)?;
        Ok(())
    }

    /// The attempt of a tag is given up, by the client.
    pub(crate) fn cut(&mut self, tag: u64, code: u32) -> Result<(), NoMemory>
        ensures { OnOk result (self.new ≡ cut self.old tag code) }
    {
        match self.live.tagged(tag) {
            Some((place, stream)) => {
                let number = stream.number;
                self.apply_effect(place, number, Effect::Ends(Some(code)))
            }
            None => {
                self.waiting.remove(tag);
                Ok(())
            }
        }
    }

    /// A PING is to be sent, unless the link is broken.
    pub(crate) fn ping(&mut self, word: u64) -> Result<(), NoMemory>
        ensures { OnOk result (self.new ≡ pinged self.old word) }
    {
        if self.broken.is_none() {
            self.queue.push(Control::Ping { word })?;
        }
        Ok(())
    }

    /// How many bytes of an open header block the link holds.
    pub(crate) fn block_len(&self) -> usize
        ensures value { result ≡ block_bytes self.now.block }
        ensures within { result ≤ 65536 }
    {
        match &self.block {
            Some(block) => block.len(),
            None => 0,
        }
    }

    /// How many streams are live.
    pub(crate) fn live_count(&self) -> usize
        ensures { result ≡ length self.now.live }
    {
        self.live.len()
    }

    /// The live streams from a place on: the tag of each with its number.
    pub(crate) fn opened_from(
        &self,
        alloc: Global,
        before: usize,
    ) -> Result<Items<(u64, u32)>, NoMemory>
        ensures { IfOk result (λ o. o ≡ map named (drop before self.now.live)) }
    {
        names_from(alloc, self.live.as_slice(), before)
    }

    /// The effects of the last frame are complete.
    pub(crate) fn seal(&mut self)
        ensures { self.new ≡ sealed_wire self.old }
    {
        self.queue.seal();
    }
}

/// The tag of each stream from a place on, with its number.
fn names_from(
    alloc: Global,
    live: &[LiveStream],
    before: usize,
) -> Result<Items<(u64, u32)>, NoMemory>
    ensures { IfOk result (λ o. o ≡ map named (drop before live.now)) }
{
    let mut names = Items::new(alloc);
    let Some(opened) = live.get(before..) else {
        return Ok(names);
    };
    for stream in opened {
        names.push((stream.tag, stream.number.get()))?;
    }
    Ok(names)
}

/// One piece of news.
pub(crate) fn one_news(alloc: Global, news: LinkNews) -> Result<Items<LinkNews>, NoMemory>
    ensures { IfOk result (λ list. list ≡ news ∷ []) }
{
    let mut list = Items::new(alloc);
    list.push(news)?;
    Ok(list)
}
