ghost use Rattle.std.specs.Prelude.{◌≡◌, ◌≤◌, pos, neg_ℤ, ◌+ℤ◌, ◌≤ℤ◌, OnOk, OnErr, IfErr};
ghost use Rattle.h2_stream.specs.Stream.{largest_window, opened, sendable, IsWindow, IsWithinBounds};
ghost use Rattle.h2_stream.specs.Steps.{headers_step, data_step, window_step, shift_step, sent_step, granted_step, reset_step};

use crate::fault::StreamFault;
use crate::state::StreamState;
use grpc_base::error_code::{FLOW_CONTROL_ERROR, PROTOCOL_ERROR};
use std::marker::Model;

/// The largest size of a window (RFC 9113, section 6.9.1).
const LARGEST_WINDOW: i64 = 0x7fff_ffff;

/// One stream, from the HEADERS that open it on.
///
/// What comes of the peer too late to mean anything is passed over: it is answered Ok and changes nothing. That is a
/// header block or DATA after the peer's END_STREAM, and WINDOW_UPDATE or a change of the initial window size once both
/// sides have ended the stream, by END_STREAM or by a reset. A fault changes nothing either.
#[derive(Debug, Drop)]
pub struct Stream {
    state: StreamState,
    /// Whether the peer's first header block has come.
    head: bool,
    /// How many octets of DATA the peer still takes. A smaller initial window size can make it negative.
    send: i64,
    /// How many octets of DATA the peer may still send.
    receive: i64,
}

impl Model for Stream {
    ghost use Rattle.h2_stream.specs.Stream.{StreamView, IsWithinBounds};

    ghost Value = { StreamView };

    ghost view = { λ s. record { state = s.state; head = s.head; send = s.send; receive = s.receive } };

    ghost invariant = { λ s. IsWithinBounds (record { state = s.state; head = s.head; send = s.send; receive = s.receive }) };
}

impl Stream {
    /// A stream that HEADERS have just opened, with the octets of DATA that each side may send at first.
    pub fn new(send: i64, receive: i64) -> Self
        requires send_is_window { IsWindow send }
        requires receive_is_window { IsWindow receive }
        ensures opened { result ≡ opened send receive }
        ensures bounds { IsWithinBounds result }
    {
        Stream {
            state: StreamState::Open,
            head: false,
            send,
            receive,
        }
    }

    /// Which sides have ended the stream.
    pub fn state(&self) -> StreamState
        ensures state { result ≡ self.now.state }
        ensures bounds { IsWithinBounds self.now }
    {
        self.state
    }

    /// Whether the peer's head has come.
    pub fn has_head(&self) -> bool
        ensures head { result ≡ self.now.head }
        ensures bounds { IsWithinBounds self.now }
    {
        self.head
    }

    /// A header block of the peer, without or with END_STREAM: its head or its trailers (RFC 9113, section 8.1).
    ///
    /// A second block without END_STREAM is a PROTOCOL_ERROR of the stream. An interim response (a `:status` from 100 to
    /// 199 before the head) is neither head nor trailers, and does not come here.
    pub fn on_headers(&mut self, end: bool) -> Result<(), StreamFault>
        ensures ok { OnOk result (headers_step self.old end ≡ Ok self.new) }
        ensures err { IfErr result (λ fault. headers_step self.old end ≡ Err fault) }
        ensures same { OnErr result (self.new ≡ self.old) }
        ensures bounds { IsWithinBounds self.new }
    {
        match (self.state.is_closed_remotely(), self.head, end) {
            (true, _, _) => return Ok(()),
            (false, true, false) => return Err(StreamFault::Stream(PROTOCOL_ERROR)),
            (false, _, _) => self.head = true,
        }
        if end {
            self.state = self.state.after_remote_end();
        }
        Ok(())
    }

    /// DATA of the peer that counts `len` octets, its padding included (RFC 9113, section 6.9.1).
    ///
    /// Before a head it is a PROTOCOL_ERROR of the stream, and beyond the receive window a FLOW_CONTROL_ERROR of it.
    pub fn on_data(&mut self, len: u32, end: bool) -> Result<(), StreamFault>
        ensures ok { OnOk result (data_step self.old len end ≡ Ok self.new) }
        ensures err { IfErr result (λ fault. data_step self.old len end ≡ Err fault) }
        ensures same { OnErr result (self.new ≡ self.old) }
        ensures bounds { IsWithinBounds self.new }
        ensures bounds_before { IsWithinBounds self.old }
    {
        if self.state.is_closed_remotely() {
            return Ok(());
        }
        if !self.head {
            return Err(StreamFault::Stream(PROTOCOL_ERROR));
        }
        let len = i64::from(len);
        if self.receive < len {
            return Err(StreamFault::Stream(FLOW_CONTROL_ERROR));
        }
        self.receive -= len;
        if end {
            self.state = self.state.after_remote_end();
        }
        Ok(())
    }

    /// WINDOW_UPDATE of the peer by this many octets (RFC 9113, section 6.9).
    ///
    /// An increment of 0 is a PROTOCOL_ERROR of the stream, and one that lifts the send window above 2^31-1 a
    /// FLOW_CONTROL_ERROR of it.
    pub fn on_window(&mut self, by: u32) -> Result<(), StreamFault>
        ensures ok { OnOk result (window_step self.old by ≡ Ok self.new) }
        ensures err { IfErr result (λ fault. window_step self.old by ≡ Err fault) }
        ensures same { OnErr result (self.new ≡ self.old) }
        ensures bounds { IsWithinBounds self.new }
    {
        if self.state == StreamState::Closed {
            return Ok(());
        }
        if by == 0 {
            return Err(StreamFault::Stream(PROTOCOL_ERROR));
        }
        let raised = self.send + i64::from(by);
        if raised > LARGEST_WINDOW {
            return Err(StreamFault::Stream(FLOW_CONTROL_ERROR));
        }
        self.send = raised;
        Ok(())
    }

    /// The change of all send windows with the peer's SETTINGS_INITIAL_WINDOW_SIZE: the new size less the one before
    /// (RFC 9113, section 6.9.2). The window may become negative.
    ///
    /// A change that lifts it above 2^31-1 is a FLOW_CONTROL_ERROR of the link.
    pub fn shift(&mut self, by: i64) -> Result<(), StreamFault>
        requires at_most { by ≤ℤ largest_window }
        requires at_least { neg_ℤ largest_window ≤ℤ (self.old.send +ℤ by) }
        ensures ok { OnOk result (shift_step self.old by ≡ Ok self.new) }
        ensures err { IfErr result (λ fault. shift_step self.old by ≡ Err fault) }
        ensures same { OnErr result (self.new ≡ self.old) }
        ensures bounds { IsWithinBounds self.new }
    {
        if self.state == StreamState::Closed {
            return Ok(());
        }
        let shifted = self.send + by;
        if shifted > LARGEST_WINDOW {
            return Err(StreamFault::Link(FLOW_CONTROL_ERROR));
        }
        self.send = shifted;
        Ok(())
    }

    /// How many octets of DATA may be sent now: 0 after END_STREAM was sent, and under a negative window.
    pub fn may_send(&self) -> u32
        ensures sendable { result ≡ sendable self.now }
        ensures bounds { IsWithinBounds self.now }
    {
        if self.state.is_closed_locally() {
            0
        } else {
            self.send.max(0) as u32
        }
    }

    /// DATA of this many octets was sent, without or with END_STREAM (RFC 9113, section 6.9.1).
    pub fn sent(&mut self, len: u32, end: bool)
        requires { len ≤ sendable self.old }
        ensures sent { self.new ≡ sent_step self.old len end }
        ensures bounds { IsWithinBounds self.new }
    {
        self.send -= i64::from(len);
        if end {
            self.state = self.state.after_local_end();
        }
    }

    /// WINDOW_UPDATE by this many octets is queued for the peer.
    pub fn granted(&mut self, by: u32)
        requires { (self.old.receive +ℤ pos by) ≤ℤ largest_window }
        ensures granted { self.new ≡ granted_step self.old by }
        ensures bounds { IsWithinBounds self.new }
    {
        self.receive += i64::from(by);
    }

    /// RST_STREAM was queued for the peer, or came of it: both sides have ended the stream (RFC 9113, section 6.4).
    pub fn reset(&mut self)
        ensures reset { self.new ≡ reset_step self.old }
        ensures bounds { IsWithinBounds self.new }
    {
        self.state = StreamState::Closed;
    }
}
