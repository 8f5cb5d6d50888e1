// A stream whose attempt has not ended.
ghost use Rattle.std.specs.Prelude.{◌≡◌, ◌<◌, ◌≤◌, ◌^◌, ◌+◌, ◌*◌, ◌++◌, ◌∷◌, [], length, filter, map, drop, slice_set, nat_le, if◌then◌else◌, Some, None, IfSome, IfOk, OnOk, OnErr};
ghost use Rattle.std.specs.List.{remove};
ghost use Rattle.h2_link.specs.Steps.{found_from, is_numbered, is_tagged, is_above, is_within};

use grpc_base::NoMemory;
use std::alloc::Global;
use std::marker::Model;

/// No window may pass this (RFC 9113, section 6.9.1).
pub(crate) const LARGEST_WINDOW: u32 = 0x7fff_ffff;

/// The number of a stream that a client opens (RFC 9113, section 5.1.1).
#[derive(Clone, Copy, Debug, PartialEq, Eq)]
pub struct StreamNumber {
    number: u32,
}

impl Model for StreamNumber {
    ghost use Rattle.std.specs.Prelude.{ℕ, ◌<◌, ◌^◌};

    ghost Value = { ℕ };

    ghost view = { λ n. n.number };

    ghost invariant = { λ n. (0 < n.number) × (n.number < 2 ^ 31) };

    ghost inverse = { λ n. record { number = n } };
}

impl StreamNumber {
    /// The number of the stream that is opened after so many.
    pub(crate) fn of_place(opened: u32) -> StreamNumber
        requires { opened < 2 ^ 30 }
        ensures { result ≡ 2 * opened + 1 }
    {
        StreamNumber {
            number: 2 * opened + 1,
        }
    }

    pub(crate) fn get(&self) -> u32
        ensures value { result ≡ self.now }
        ensures from_one { 0 < result }
        ensures within { result < 2 ^ 31 }
    {
        self.number
    }
}

/// The size of a window at first (RFC 9113, section 6.5.2).
#[derive(Clone, Copy, Debug, PartialEq, Eq)]
pub struct WindowSize {
    size: u32,
}

impl Model for WindowSize {
    ghost use Rattle.std.specs.Prelude.{ℕ, ◌≤◌};

    ghost Value = { ℕ };

    ghost view = { λ w. w.size };

    ghost invariant = { λ w. w.size ≤ 2147483647 };

    ghost inverse = { λ n. record { size = n } };
}

impl WindowSize {
    /// None exactly above the largest window.
    pub(crate) fn new(size: u32) -> Option<WindowSize>
        ensures { result ≡ (if nat_le size 2147483647 then Some size else None) }
    {
        if size <= LARGEST_WINDOW {
            Some(WindowSize { size })
        } else {
            None
        }
    }

    /// The size before any SETTINGS.
    pub(crate) fn first() -> WindowSize
        ensures { result ≡ 65535 }
    {
        WindowSize { size: 65_535 }
    }

    pub(crate) fn get(&self) -> u32
        ensures value { result ≡ self.now }
        ensures within { result ≤ 2147483647 }
    {
        self.size
    }
}

/// A stream whose attempt has not ended.
#[derive(Clone, Copy, Debug)]
pub struct LiveStream {
    pub number: StreamNumber,
    /// What the caller knows it by.
    pub tag: u64,
    /// Whether the peer's head has come.
    pub head: bool,
    /// Whether END_STREAM was sent.
    pub finished: bool,
    /// The increments of its WINDOW_UPDATEs less the DATA that was sent. With the initial window size in force this is
    /// the send window (RFC 9113, section 6.9.2).
    pub credit: i32,
}

/// The live streams in the order of their opening.
#[derive(Debug, Drop)]
pub(crate) struct LiveStreams {
    streams: Vec<LiveStream>,
}

impl Model for LiveStreams {
    ghost use Rattle.std.specs.Prelude.{List};
    ghost use Rattle.h2_link.specs.declared.live.LiveStream.{LiveStream};

    ghost Value = { List LiveStream };

    ghost view = { λ l. l.streams.items };
}

impl LiveStreams {
    pub(crate) fn new(alloc: Global) -> LiveStreams
        ensures { result ≡ [] }
    {
        LiveStreams {
            streams: Vec::new(alloc),
        }
    }

    pub(crate) fn push(&mut self, stream: LiveStream) -> Result<(), NoMemory>
        ensures ok { OnOk result (self.new ≡ self.old ++ stream ∷ []) }
        ensures err { OnErr result (self.new ≡ self.old) }
    {
        self.streams.push(stream)?;
        Ok(())
    }

    /// Puts another record of a stream at its place.
    pub(crate) fn put(&mut self, place: usize, stream: LiveStream)
        requires { place < length self.old }
        ensures { self.new ≡ slice_set self.old place stream }
    {
        self.streams[place] = stream;
    }

    pub(crate) fn remove(&mut self, place: usize)
        requires { place < length self.old }
        ensures { self.new ≡ remove self.old place }
    {
        let _stream = self.streams.remove(place);
    }

    pub(crate) fn as_slice(&self) -> &[LiveStream]
        ensures { result.now ≡ self.now }
    {
        self.streams.as_slice()
    }

    pub(crate) fn len(&self) -> usize
        ensures { result ≡ length self.now }
    {
        self.streams.len()
    }

    /// The stream of a number, with its place.
    pub(crate) fn numbered(&self, number: u32) -> Option<(usize, LiveStream)>
        ensures found { result ≡ found_from (is_numbered number) 0 self.now }
        ensures within { IfSome result (λ x. x.0 < length self.now) }
    {
        for (place, stream) in self.streams.iter().enumerate() {
            if stream.number.get() == number {
                return Some((place, *stream));
            }
        }
        None
    }

    /// The stream of a tag, with its place.
    pub(crate) fn tagged(&self, tag: u64) -> Option<(usize, LiveStream)>
        ensures found { result ≡ found_from (is_tagged tag) 0 self.now }
        ensures within { IfSome result (λ x. x.0 < length self.now) }
    {
        for (place, stream) in self.streams.iter().enumerate() {
            if stream.tag == tag {
                return Some((place, *stream));
            }
        }
        None
    }

    /// The streams above a number.
    pub(crate) fn above(&self, alloc: Global, last: u32) -> Result<LiveStreams, NoMemory>
        ensures { IfOk result (λ l. l ≡ filter (is_above last) self.now) }
    {
        let mut found = LiveStreams::new(alloc);
        for stream in self.streams.as_slice() {
            if stream.number.get() > last {
                found.push(*stream)?;
            }
        }
        Ok(found)
    }

    /// The streams up to a number.
    pub(crate) fn up_to(&self, alloc: Global, last: u32) -> Result<LiveStreams, NoMemory>
        ensures { IfOk result (λ l. l ≡ filter (is_within last) self.now) }
    {
        let mut found = LiveStreams::new(alloc);
        for stream in self.streams.as_slice() {
            if stream.number.get() <= last {
                found.push(*stream)?;
            }
        }
        Ok(found)
    }
}
