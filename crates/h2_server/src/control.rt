// Frames that are sent whatever the windows, in the order in which they were queued.
ghost use Rattle.std.specs.Prelude.{◌≡◌, ◌<◌, ◌^◌, ◌==◌, ◌++◌, ◌∷◌, [], if◌then◌else◌, drop, slice_get, OnOk, Some, None};

use crate::live::StreamNumber;
use grpc_base::NoMemory;
use std::alloc::Global;
use std::collections::VecDeque;
use std::marker::Model;

/// The increment of a WINDOW_UPDATE (RFC 9113, section 6.9).
#[derive(Clone, Copy, Debug, PartialEq, Eq)]
pub struct Increment {
    by: u32,
}

impl Model for Increment {
    ghost use Rattle.std.specs.Prelude.{ℕ, ◌<◌, ◌^◌};

    ghost Value = { ℕ };

    ghost view = { λ i. i.by };

    ghost invariant = { λ i. (0 < i.by) × (i.by < 2 ^ 31) };

    ghost inverse = { λ n. record { by = n } };
}

impl Increment {
    /// None exactly for 0.
    pub(crate) fn of_len(len: u32) -> Option<Increment>
        requires { len < 2 ^ 31 }
        ensures { result ≡ (if len == 0 then None else Some len) }
    {
        if len == 0 {
            None
        } else {
            Some(Increment { by: len })
        }
    }

    pub(crate) fn get(&self) -> u32
        ensures value { result ≡ self.now }
        ensures from_one { 0 < result }
        ensures within { result < 2 ^ 31 }
    {
        self.by
    }
}

/// A frame that no window holds back.
#[derive(Clone, Copy, Debug)]
pub enum Control {
    /// The server's SETTINGS, without any setting (RFC 9113, section 3.4).
    Settings,
    /// The acknowledgement of a SETTINGS; `resizes` where it names SETTINGS_HEADER_TABLE_SIZE.
    SettingsAck { resizes: bool },
    PingAck { word: u64 },
    /// WINDOW_UPDATE of the connection.
    LinkUpdate { by: Increment },
    /// WINDOW_UPDATE of a stream.
    StreamUpdate { stream: StreamNumber, by: Increment },
    /// RST_STREAM.
    Reset { stream: StreamNumber, code: u32 },
}

/// The frames that wait to be sent.
#[derive(Debug, Drop)]
pub(crate) struct Controls {
    items: VecDeque<Control>,
}

impl Model for Controls {
    ghost use Rattle.std.specs.Prelude.{List};
    ghost use Rattle.h2_server.specs.declared.control.Control.{Control};

    ghost Value = { List Control };

    ghost view = { λ q. q.items.items };
}

impl Controls {
    pub(crate) fn new(alloc: Global) -> Controls
        ensures { result ≡ [] }
    {
        Controls {
            items: VecDeque::new(alloc),
        }
    }

    /// Appends a frame.
    pub(crate) fn push(&mut self, control: Control) -> Result<(), NoMemory>
        ensures { OnOk result (self.new ≡ self.old ++ control ∷ []) }
    {
        self.items.push_back(control)?;
        Ok(())
    }

    /// The first frame.
    pub(crate) fn first(&self) -> Option<Control>
        ensures { result ≡ slice_get self.now 0 }
    {
        self.items.front().copied()
    }

    /// Takes the first frame off.
    pub(crate) fn pop_first(&mut self)
        ensures { self.new ≡ drop 1 self.old }
    {
        let _first = self.items.pop_front();
    }
}
