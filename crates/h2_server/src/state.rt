// The state of a link after the preface, whole frames and calls.
ghost use Rattle.std.specs.Prelude.{◌≡◌, ◌<◌, ◌≤◌, length, OnOk, IfOk, Some};
ghost use Rattle.h2_server.specs.Outcomes.{kept_bytes_of};
ghost use Rattle.h2_server.specs.Steps.{with_effect};
ghost use Rattle.h2_server.specs.Wire.{blank, fresh_wire};

use crate::block::OpenBlock;
use crate::control::{Control, Controls};
use crate::effect::Effect;
use crate::live::{LiveStreams, StreamNumber, WindowSize};
use crate::news::RequestNews;
use grpc_base::NoMemory;
use h2_hpack::Decoder;
use std::alloc::Global;
use std::marker::Model;

/// The windows at first (RFC 9113, section 6.9.2).
const FIRST_WINDOW: u32 = 65_535;

#[derive(Debug, Drop)]
pub(crate) struct State {
    /// The code with which the link is broken.
    pub broken: Option<u32>,
    /// Whether the client's first SETTINGS came.
    pub ready: bool,
    pub live: LiveStreams,
    /// The last stream that the client opened, 0 for none.
    pub last: u32,
    /// The client's SETTINGS_INITIAL_WINDOW_SIZE.
    pub initial: WindowSize,
    /// The link's send window.
    pub window: u32,
    pub queue: Controls,
    /// Whether the next header block is to begin with a dynamic table size update.
    pub resizes: bool,
    /// The header block that CONTINUATION is to complete.
    pub block: Option<OpenBlock>,
    pub decoder: Decoder,
}

impl Model for State {
    ghost use Rattle.h2_server.specs.Wire.{Wire};

    ghost Value = { Wire };

    ghost view = { λ s. record { broken = s.broken; ready = s.ready; live = s.live; last = s.last; initial = s.initial; window = s.window; queue = s.queue; resizes = s.resizes; block = s.block; table = s.decoder } };
}

impl State {
    /// A link on which nothing happened, but that it may be broken.
    pub(crate) fn blank(alloc: Global, broken: Option<u32>) -> State
        ensures { result ≡ blank broken }
    {
        State {
            broken,
            ready: false,
            live: LiveStreams::new(alloc),
            last: 0,
            initial: WindowSize::first(),
            window: FIRST_WINDOW,
            queue: Controls::new(alloc),
            resizes: false,
            block: None,
            decoder: Decoder::new(alloc),
        }
    }

    /// A new link, whose SETTINGS are to be sent.
    pub(crate) fn new(alloc: Global) -> Result<State, NoMemory>
        ensures { IfOk result (λ s. s ≡ fresh_wire) }
    {
        let mut state = State::blank(alloc, None);
        state.queue.push(Control::Settings)?;
        Ok(state)
    }

    /// The link is broken with this code: nothing of it is kept.
    pub(crate) fn break_off(&mut self, alloc: Global, code: u32) -> Option<RequestNews>
        ensures state { self.new ≡ blank (Some code) }
        ensures news { result ≡ Some (RequestNews.Broken code) }
    {
        *self = State::blank(alloc, Some(code));
        Some(RequestNews::Broken { code })
    }

    /// What became of the stream at a place.
    pub(crate) fn apply_effect(
        &mut self,
        place: usize,
        number: StreamNumber,
        effect: Effect,
    ) -> Result<(), NoMemory>
        requires { place < length self.old.live }
        ensures { OnOk result (self.new ≡ with_effect self.old place number effect) }
    {
        match effect {
            Effect::Continues(stream) => self.live.put(place, stream),
            Effect::Closes => self.live.remove(place),
            Effect::Faults(code) => {
                self.live.remove(place);
                self.queue.push(Control::Reset {
                    stream: number,
                    code,
                })?;
            }
        }
        Ok(())
    }

    /// How many bytes of an open header block the link holds.
    pub(crate) fn block_len(&self) -> usize
        ensures value { result ≡ kept_bytes_of self.now.block }
        ensures within { result ≤ 65536 }
    {
        match &self.block {
            Some(block) => block.len(),
            None => 0,
        }
    }
}
