// The frames that a link sends, one at a time.
ghost use Rattle.std.specs.Prelude.{◌≡◌, ◌<◌, ◌++◌, ◌∷◌, [], if◌then◌else◌, is_some, length, slice_get, IfOk, OnOk, Some};
ghost use Rattle.h2_frame.specs.Frames.{written};
ghost use Rattle.h2_frame.specs.Sent.{settings_frame};
ghost use Rattle.h2_server.specs.Frames.{control_frame, goaway_frame, response_headers};
ghost use Rattle.h2_server.specs.Outcomes.{WentAs};
ghost use Rattle.h2_server.specs.Steps.{live_after};
ghost use Rattle.h2_server.specs.Sends.{block_bytes, block_sent, control_sent, data_sent, goaway_bytes, next_control, reset_sent, share_of};

use crate::control::Control;
use crate::effect::{Effect, response_effect};
use crate::live::{LiveStream, StreamNumber};
use crate::share::{Share, lowered_credit};
use crate::state::State;
use bytes::BytesMut;
use grpc_base::NoMemory;
use h2_frame::{
    Frame, FrameHeader, HEADER_SIZE, flags, kinds, write_data, write_frame, write_header,
    write_ping_ack, write_rst_stream, write_settings, write_settings_ack, write_window_update,
};
use h2_hpack::SIZE_UPDATE_TO_ZERO;

/// How many bytes a frame has that no window holds back.
fn control_size(control: &Control) -> u64
    ensures { result ≡ length (written (control_frame control.now)) }
{
    match control {
        Control::Settings | Control::SettingsAck { resizes: _ } => 9,
        Control::PingAck { word: _ } => 17,
        Control::LinkUpdate { by: _ }
        | Control::StreamUpdate { stream: _, by: _ }
        | Control::Reset { stream: _, code: _ } => 13,
    }
}

/// Appends a frame that no window holds back.
fn write_control(out: &mut BytesMut, control: &Control) -> Result<(), NoMemory>
    ensures { OnOk result (out.new.items ≡ out.old.items ++ written (control_frame control.now)) }
{
    match *control {
        Control::Settings => write_settings(out, &[]),
        Control::SettingsAck { resizes: _ } => write_settings_ack(out),
        Control::PingAck { word } => write_ping_ack(out, word),
        Control::LinkUpdate { by } => write_window_update(out, 0, by.get()),
        Control::StreamUpdate { stream, by } => { write_window_update(out, stream.get(), by.get()) }
        Control::Reset { stream, code } => write_rst_stream(out, stream.get(), code),
    }
}

/// Appends HEADERS with a whole header block, which begins with a table size update where that is owed.
fn write_head(
    out: &mut BytesMut,
    number: StreamNumber,
    resizes: bool,
    block: &[u8],
    ends: bool,
) -> Result<(), NoMemory>
    requires { length block.now < 16384 }
    ensures { OnOk result (out.new.items ≡ out.old.items ++ written (response_headers number (block_bytes resizes block.now) ends)) }
{
    let end = if ends { flags::END_STREAM } else { 0 };
    let header = FrameHeader {
        kind: kinds::HEADERS,
        flags: flags::END_HEADERS | end,
        stream: number.get(),
        length: block.len() as u32 + u32::from(resizes),
    };
    out.reserve(HEADER_SIZE + 1 + block.len())?;
    write_header(out, header)?;
    if resizes {
        out.extend_from_slice(&[SIZE_UPDATE_TO_ZERO])?;
    }
    out.extend_from_slice(block)?;
    Ok(())
}

/// Appends GOAWAY (RFC 9113, section 6.8).
fn write_goaway(out: &mut BytesMut, last: u32, code: u32) -> Result<(), NoMemory>
    ensures { OnOk result (out.new.items ≡ out.old.items ++ written (goaway_frame last code)) }
{
    let [a, b, c, d] = last.to_be_bytes();
    let [p, q, r, s] = code.to_be_bytes();
    let goaway = Frame {
        kind: kinds::GOAWAY,
        flags: 0,
        stream: 0,
        payload: &[a, b, c, d, p, q, r, s],
    };
    write_frame(out, &goaway)
}

impl State {
    /// Sends the first queued frame, if there is one and it fits.
    pub(crate) fn send_control(&mut self, room: u64, out: &mut BytesMut) -> Result<bool, NoMemory>
        ensures { IfOk result (λ sent. WentAs sent room self.old out.old.items (next_control self.old) self.new out.new.items) }
    {
        let Some(control) = self.queue.first() else {
            return Ok(false);
        };
        if control_size(&control) > room {
            return Ok(false);
        }
        write_control(out, &control)?;
        self.queue.pop_first();
        if let Control::SettingsAck { resizes } = control {
            self.resizes = self.resizes || resizes;
        }
        Ok(true)
    }

    /// Sends a header block of a response.
    pub(crate) fn send_block(
        &mut self,
        stream: u32,
        block: &[u8],
        ends: bool,
        out: &mut BytesMut,
    ) -> Result<(), NoMemory>
        requires { length block.now < 16384 }
        ensures state { OnOk result (self.new ≡ (block_sent self.old stream block.now ends).wire) }
        ensures out { OnOk result (out.new.items ≡ out.old.items ++ (block_sent self.old stream block.now ends).octets) }
    {
        let Some((place, stream)) = self.live.answering(stream) else {
            return Ok(());
        };
        write_head(out, stream.number, self.resizes, block, ends)?;
        self.resizes = false;
        self.put_effect(place, response_effect(&stream, ends));
        Ok(())
    }

    /// Puts a stream back, or takes it off.
    fn put_effect(&mut self, place: usize, effect: Effect)
        requires { place < length self.old.live }
        ensures { self.new ≡ record self.old { live = live_after place effect self.old.live } }
    {
        match effect {
            Effect::Continues(stream) => self.live.put(place, stream),
            Effect::Closes | Effect::Faults(_) => self.live.remove(place),
        }
    }

    /// What a stream may send of so many bytes that are left.
    pub(crate) fn share_of(&self, stream: u32, left: u64, finished: bool) -> Option<Share>
        ensures { result ≡ share_of self.now stream left finished }
    {
        match self.live.answering(stream) {
            Some((_, stream)) => self.share_found(&stream, left, finished),
            None => None,
        }
    }

    /// Sends one frame of DATA, and answers how many of the bytes went.
    pub(crate) fn send_data(
        &mut self,
        stream: u32,
        left: &[u8],
        finished: bool,
        out: &mut BytesMut,
    ) -> Result<Option<Share>, NoMemory>
        ensures share { IfOk result (λ x. x ≡ share_of self.old stream (length left.now) finished) }
        ensures state { OnOk result (self.new ≡ (data_sent self.old stream left.now finished).wire) }
        ensures out { OnOk result (out.new.items ≡ out.old.items ++ (data_sent self.old stream left.now finished).octets) }
    {
        let Some((place, stream)) = self.live.answering(stream) else {
            return Ok(None);
        };
        let Some(share) = self.share_found(&stream, left.len() as u64, finished) else {
            return Ok(None);
        };
        let Share { len, ends } = share;
        write_data(out, stream.number.get(), &left[..len as usize], ends)?;
        self.window -= len;
        let initial = self.initial;
        let spent = LiveStream {
            number: stream.number,
            ended: stream.ended,
            finished: stream.finished,
            credit: lowered_credit(&initial, stream.credit, len),
        };
        self.put_effect(place, response_effect(&spent, ends));
        Ok(Some(share))
    }

    /// Resets a stream.
    pub(crate) fn send_reset(
        &mut self,
        stream: u32,
        code: u32,
        out: &mut BytesMut,
    ) -> Result<(), NoMemory>
        ensures state { OnOk result (self.new ≡ (reset_sent self.old stream code).wire) }
        ensures out { OnOk result (out.new.items ≡ out.old.items ++ (reset_sent self.old stream code).octets) }
    {
        let Some((place, stream)) = self.live.numbered(stream) else {
            return Ok(());
        };
        write_rst_stream(out, stream.number.get(), code)?;
        self.live.remove(place);
        Ok(())
    }

    /// Announces the end of new streams.
    pub(crate) fn send_goaway(&self, code: u32, out: &mut BytesMut) -> Result<(), NoMemory>
        ensures { OnOk result (out.new.items ≡ out.old.items ++ goaway_bytes self.now code) }
    {
        write_goaway(out, self.last, code)
    }
}
