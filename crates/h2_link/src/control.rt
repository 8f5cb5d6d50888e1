// Frames that are sent whatever the windows, in the order in which they were queued.
ghost use Rattle.std.specs.Prelude.{◌≡◌, ◌<◌, ◌≤◌, ◌^◌, ◌==◌, if◌then◌else◌, length, slice_get, OnOk, Some, None};
ghost use Rattle.h2_link.specs.Queues.{new_queue, queued, sealed, reset_queued, unqueued, reset_place, comes_after};

use crate::live::StreamNumber;
use grpc_base::NoMemory;
use std::alloc::Global;
use std::collections::VecDeque;
use std::marker::Model;

/// The increment of a WINDOW_UPDATE (RFC 9113, section 6.9).
#[derive(Clone, Copy, Debug, PartialEq, Eq)]
pub struct Increment {
    by: u32,
}

impl Model for Increment {
    ghost use Rattle.std.specs.Prelude.{ℕ, ◌<◌, ◌^◌};

    ghost Value = { ℕ };

    ghost view = { λ i. i.by };

    ghost invariant = { λ i. (0 < i.by) × (i.by < 2 ^ 31) };

    ghost inverse = { λ n. record { by = n } };
}

impl Increment {
    /// None exactly for 0.
    pub(crate) fn of_len(len: u32) -> Option<Increment>
        requires { len < 2 ^ 31 }
        ensures { result ≡ (if len == 0 then None else Some len) }
    {
        if len == 0 {
            None
        } else {
            Some(Increment { by: len })
        }
    }

    pub(crate) fn get(&self) -> u32
        ensures value { result ≡ self.now }
        ensures from_one { 0 < result }
        ensures within { result < 2 ^ 31 }
    {
        self.by
    }
}

/// A frame that no window holds back.
#[derive(Clone, Copy, Debug)]
pub enum Control {
    /// The connection preface with the client's SETTINGS (RFC 9113, section 3.4).
    Preface,
    /// The acknowledgement of a SETTINGS; `resizes` where it names SETTINGS_HEADER_TABLE_SIZE.
    SettingsAck { resizes: bool },
    Ping { word: u64 },
    PingAck { word: u64 },
    /// WINDOW_UPDATE of the connection.
    LinkUpdate { by: Increment },
    /// WINDOW_UPDATE of a stream.
    StreamUpdate { stream: StreamNumber, by: Increment },
    /// RST_STREAM.
    Reset { stream: StreamNumber, code: u32 },
}

/// The frames that wait to be sent. Those at the back that are resets of the last frame's effects stay in the order of
/// their streams until the queue is sealed or another frame is queued.
#[derive(Debug, Drop)]
pub struct Controls {
    items: VecDeque<Control>,
    fresh: usize,
}

impl Model for Controls {
    ghost use Rattle.std.specs.Prelude.{◌≤◌, length};
    ghost use Rattle.h2_link.specs.Queues.{Queue};

    ghost Value = { Queue };

    ghost view = { λ q. record { items = q.items.items; fresh = q.fresh } };

    ghost invariant = { λ q. q.fresh ≤ length q.items.items };
}

impl Controls {
    pub(crate) fn new(alloc: Global) -> Controls
        ensures { result ≡ new_queue }
    {
        Controls {
            items: VecDeque::new(alloc),
            fresh: 0,
        }
    }

    /// Appends a frame.
    pub(crate) fn push(&mut self, control: Control) -> Result<(), NoMemory>
        ensures { OnOk result (self.new ≡ queued self.old control) }
    {
        self.items.push_back(control)?;
        self.fresh = 0;
        Ok(())
    }

    /// The effects of the last frame are complete.
    pub(crate) fn seal(&mut self)
        ensures { self.new ≡ sealed self.old }
    {
        self.fresh = 0;
    }

    /// Puts the reset of a stream among those of the last frame's effects.
    pub(crate) fn reset(&mut self, stream: StreamNumber, code: u32) -> Result<(), NoMemory>
        ensures { OnOk result (self.new ≡ reset_queued stream code self.old) }
    {
        let place = self.reset_place(stream);
        self.items.insert(place, Control::Reset { stream, code })?;
        let _count = self.items.len();
        self.fresh += 1;
        Ok(())
    }

    fn reset_place(&self, stream: StreamNumber) -> usize
        ensures place { result ≡ reset_place stream self.now }
        ensures within { result ≤ length self.now.items }
    {
        let start = self.items.len().saturating_sub(self.fresh);
        for place in start..self.items.len() {
            if comes_after(stream, &self.items[place]) {
                return place;
            }
        }
        self.items.len()
    }

    /// The first frame.
    pub(crate) fn first(&self) -> Option<Control>
        ensures { result ≡ slice_get self.now.items 0 }
    {
        self.items.front().copied()
    }

    /// Takes the first frame off.
    pub(crate) fn pop_first(&mut self)
        ensures { self.new ≡ unqueued self.old }
    {
        let _first = self.items.pop_front();
        self.fresh = self.fresh.min(self.items.len());
    }
}

/// Whether this is the reset of a later stream.
fn comes_after(stream: StreamNumber, control: &Control) -> bool
    ensures { result ≡ comes_after stream control.now }
{
    match control {
        Control::Reset {
            stream: other,
            code: _,
        } => stream.get() < other.get(),
        _ => false,
    }
}
