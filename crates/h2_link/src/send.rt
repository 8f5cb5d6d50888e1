// The frames that a link sends, one at a time.
ghost use Rattle.std.specs.Prelude.{◌≡◌, ◌≢◌, ◌<◌, ◌≤◌, ◌^◌, ◌++◌, ◌∷◌, ℕ, [], true, false, if◌then◌else◌, is_some, length, slice_get, min, pos, ◌+ℤ◌, ◌-ℤ◌, IfOk, OnOk, IfSome, Some};
ghost use Rattle.h2_frame.specs.Frames.{written};
ghost use Rattle.h2_frame.specs.Sent.{headers_frame};
ghost use Rattle.h2_hpack.specs.Encoding.{block_bytes, size_update_to_zero};
ghost use Rattle.h2_hpack.specs.Tables.{list_size};
ghost use Rattle.h2_link.specs.Drains.{Opening, octets_of, outgoing, may_open, share_of, sender, sent_control, sent_head, sent_data, next};
ghost use Rattle.h2_link.specs.Feeds.{Holds, Line};
ghost use Rattle.h2_link.specs.LinkErrors.{send_window};
ghost use Rattle.h2_link.specs.Outcomes.{WentAs, ShareFits};
ghost use Rattle.h2_stream.specs.Stream.{or_zero};

use crate::control::Control;
use crate::feed::Feed;
use crate::live::{LiveStream, StreamNumber, WindowSize};
use crate::state::State;
use bytes::BytesMut;
use grpc_base::limits::PAYLOAD_BYTES;
use grpc_base::{Fields, NoMemory};
use h2_frame::settings::{ENABLE_PUSH, MAX_HEADER_LIST_SIZE};
use h2_frame::{
    FrameHeader, HEADER_SIZE, Setting, flags, kinds, write_header, write_ping, write_ping_ack,
    write_rst_stream, write_settings, write_settings_ack, write_window_update,
};
use h2_hpack::{SIZE_UPDATE_TO_ZERO, append_fields};
use std::alloc::Global;
use std::mem;

/// The beginning of a connection (RFC 9113, section 3.4).
const PREFACE: [u8; 24] = *b"PRI * HTTP/2.0\r\n\r\nSM\r\n\r\n";

/// No push, and header lists of at most 16,384 bytes.
const SETTINGS: [Setting; 2] = [
    Setting {
        identifier: ENABLE_PUSH,
        value: 0,
    },
    Setting {
        identifier: MAX_HEADER_LIST_SIZE,
        value: 16_384,
    },
];

/// The streams that can be opened: their numbers have 31 bits.
const STREAM_LIMIT: u32 = 1 << 30;

/// DATA of one stream: which one, how many bytes, and whether END_STREAM.
#[derive(Clone, Copy, Debug)]
pub(crate) struct Share {
    pub place: usize,
    pub stream: LiveStream,
    pub len: u32,
    pub ends: bool,
}

/// How many bytes a frame has that no window holds back.
fn control_size(control: &Control) -> u64
    ensures { result ≡ length (octets_of (outgoing control.now)) }
{
    match control {
        Control::Preface => 45,
        Control::SettingsAck { resizes: _ } => 9,
        Control::Ping { word: _ } | Control::PingAck { word: _ } => 17,
        Control::LinkUpdate { by: _ }
        | Control::StreamUpdate { stream: _, by: _ }
        | Control::Reset { stream: _, code: _ } => 13,
    }
}

/// Appends the preface with the client's SETTINGS.
fn write_preface(out: &mut BytesMut) -> Result<(), NoMemory>
    ensures { OnOk result (out.new.items ≡ out.old.items ++ octets_of Opening) }
{
    out.extend_from_slice(&PREFACE)?;
    write_settings(out, &SETTINGS)
}

/// Appends a frame that no window holds back.
fn write_control(out: &mut BytesMut, control: &Control) -> Result<(), NoMemory>
    ensures { OnOk result (out.new.items ≡ out.old.items ++ octets_of (outgoing control.now)) }
{
    match *control {
        Control::Preface => write_preface(out),
        Control::SettingsAck { resizes: _ } => write_settings_ack(out),
        Control::Ping { word } => write_ping(out, word),
        Control::PingAck { word } => write_ping_ack(out, word),
        Control::LinkUpdate { by } => write_window_update(out, 0, by.get()),
        Control::StreamUpdate { stream, by } => { write_window_update(out, stream.get(), by.get()) }
        Control::Reset { stream, code } => write_rst_stream(out, stream.get(), code),
    }
}

/// Appends HEADERS with a whole header block, which begins with a table size update where that is owed.
fn write_head(
    out: &mut BytesMut,
    number: &StreamNumber,
    resizes: bool,
    block: &[u8],
) -> Result<(), NoMemory>
    requires { length block.now < 16384 }
    ensures { OnOk result (out.new.items ≡ out.old.items ++ written (headers_frame number.now ((if resizes then size_update_to_zero ∷ [] else []) ++ block.now))) }
{
    let header = FrameHeader {
        kind: kinds::HEADERS,
        flags: flags::END_HEADERS,
        stream: number.get(),
        length: block.len() as u32 + u32::from(resizes),
    };
    write_header(out, header)?;
    if resizes {
        out.extend_from_slice(&[SIZE_UPDATE_TO_ZERO])?;
    }
    out.extend_from_slice(block)?;
    Ok(())
}

/// What a stream may send of so many bytes that are left, where its END_STREAM was not sent.
fn share_of(
    window: u32,
    initial: &WindowSize,
    stream: &LiveStream,
    left: u64,
    finished: bool,
) -> Option<(u32, bool)>
    requires { stream.now.finished ≡ false }
    ensures share { result ≡ share_of window initial.now stream.now left finished }
    ensures within { IfSome result (λ x. (x.0 ≤ left) × (x.0 ≤ window) × (x.0 ≤ 16384) × (x.0 ≤ or_zero (send_window initial.now stream.now))) }
{
    let len = least_of(window, own_window(initial, stream), left);
    let ends = finished && len == left;
    if 0 < len || ends {
        Some((len as u32, ends))
    } else {
        None
    }
}

/// The send window of a stream, or 0 for one below 0.
fn own_window(initial: &WindowSize, stream: &LiveStream) -> u64
    ensures { result ≡ or_zero (send_window initial.now stream.now) }
{
    (i64::from(initial.get()) + i64::from(stream.credit)).max(0) as u64
}

fn least_of(window: u32, own: u64, left: u64) -> u64
    ensures least { result ≡ min (min 16384 window) (min own left) }
    ensures size { result ≤ 16384 }
{
    let frame = (PAYLOAD_BYTES as u64).min(u64::from(window));
    frame.min(own.min(left))
}

/// The credit of a stream after so many bytes of DATA more.
#[tactic(auto, using(crate::proofs::Windows::lowered))]
fn lowered_credit(initial: &WindowSize, credit: i32, len: u32) -> i32
    requires { len ≤ or_zero (pos initial.now +ℤ credit) }
    ensures { result ≡ credit -ℤ pos len }
{
    let _initial = initial.get();
    (i64::from(credit) - i64::from(len)) as i32
}

impl State {
    /// Whether the peer allows one stream more.
    fn may_open(&self) -> bool
        ensures { result ≡ may_open self.now }
    {
        let is_below = match self.limit {
            Some(limit) => (self.live.len() as u64) < u64::from(limit),
            None => true,
        };
        !self.retiring && is_below && self.opened < STREAM_LIMIT
    }

    /// The stream that sends DATA next. The feed is not asked about a stream whose END_STREAM was sent.
    fn sender<F: Feed>(&self, feed: &F) -> Option<Share>
        requires holds { Holds self.now (F.lines feed.now) }
        ensures share { result ≡ sender self.now.window self.now.initial (F.lines feed.now) 0 self.now.live }
        ensures fits { IfSome result (λ x. ShareFits self.now (F.lines feed.now) x) }
    {
        let window = self.window;
        let size = self.initial;
        for (place, stream) in self.live.as_slice().iter().enumerate() {
            if stream.finished {
                continue;
            }
            let (left, finished) = feed.ready(stream.tag);
            if let Some((len, ends)) = share_of(window, &size, stream, left, finished) {
                return Some(Share {
                    place,
                    stream: *stream,
                    len,
                    ends,
                });
            }
        }
        None
    }

    /// Whether something may be sent.
    pub(crate) fn can_send<F: Feed>(&self, feed: &F) -> bool
        requires holds { Holds self.now (F.lines feed.now) }
        ensures { result ≡ is_some (next self.now (F.lines feed.now)) }
    {
        if self.queue.first().is_some() {
            return true;
        }
        if self.may_open() && self.waiting.first().is_some() {
            return true;
        }
        self.sender(feed).is_some()
    }

    /// Sends what stands next, if anything does and it fits.
    pub(crate) fn send_one<F: Feed>(
        &mut self,
        alloc: Global,
        left: u64,
        feed: &mut F,
        out: &mut BytesMut,
    ) -> Result<bool, NoMemory>
        requires holds { Holds self.old (F.lines feed.old) }
        ensures went { IfOk result (λ sent. WentAs sent left self.old (F.lines feed.old) out.old.items (next self.old (F.lines feed.old)) self.new (F.lines feed.new) out.new.items) }
        ensures same { F.same feed.old feed.new }
    {
        if let Some(control) = self.queue.first() {
            return self.send_control(left, &control, out);
        }
        if self.may_open() {
            if let Some(tag) = self.waiting.first() {
                return self.send_head(alloc, tag, left, feed, out);
            }
        }
        match self.sender(feed) {
            Some(share) => self.send_data(left, share, feed, out),
            None => Ok(false),
        }
    }

    fn send_control(
        &mut self,
        left: u64,
        control: &Control,
        out: &mut BytesMut,
    ) -> Result<bool, NoMemory>
        requires first { slice_get self.old.queue.items 0 ≡ Some control.now }
        ensures { IfOk result (λ sent. (g : ℕ → Line) → WentAs sent left self.old g out.old.items (Some (sent_control self.old g control.now)) self.new g out.new.items) }
    {
        if control_size(control) > left {
            return Ok(false);
        }
        write_control(out, control)?;
        self.queue.pop_first();
        if let Control::SettingsAck { resizes } = control {
            self.resizes = self.resizes || *resizes;
        }
        Ok(true)
    }

    fn send_head<F: Feed>(
        &mut self,
        alloc: Global,
        tag: u64,
        left: u64,
        feed: &mut F,
        out: &mut BytesMut,
    ) -> Result<bool, NoMemory>
        requires held { (F.lines feed.old tag).held ≡ true }
        requires room { self.old.opened < 2 ^ 30 }
        ensures went { IfOk result (λ sent. WentAs sent left self.old (F.lines feed.old) out.old.items (Some (sent_head self.old (F.lines feed.old) tag)) self.new (F.lines feed.new) out.new.items) }
        ensures same { F.same feed.old feed.new }
    {
        let fields = feed.head(tag)?;
        let mut block = mem::replace(&mut self.encoded, Vec::new(alloc));
        encode_block(&mut block, &fields)?;
        let resizes = self.resizes;
        if HEADER_SIZE as u64 + u64::from(resizes) + block.len() as u64 > left {
            return Ok(false);
        }
        out.reserve(HEADER_SIZE + 1 + block.len())?;
        let number = StreamNumber::of_place(self.opened);
        write_head(out, &number, resizes, block.as_slice())?;
        self.encoded = block;
        self.live.push(LiveStream {
            number,
            tag,
            head: false,
            finished: false,
            credit: 0,
        })?;
        self.waiting.pop_first();
        self.opened += 1;
        self.resizes = false;
        Ok(true)
    }

    fn send_data<F: Feed>(
        &mut self,
        left: u64,
        share: Share,
        feed: &mut F,
        out: &mut BytesMut,
    ) -> Result<bool, NoMemory>
        requires { ShareFits self.old (F.lines feed.old) share }
        ensures went { IfOk result (λ sent. WentAs sent left self.old (F.lines feed.old) out.old.items (Some (sent_data self.old (F.lines feed.old) share)) self.new (F.lines feed.new) out.new.items) }
        ensures same { F.same feed.old feed.new }
    {
        let Share {
            place,
            stream,
            len,
            ends,
        } = share;
        if HEADER_SIZE as u64 + u64::from(len) > left {
            return Ok(false);
        }
        let header = FrameHeader {
            kind: kinds::DATA,
            flags: if ends { flags::END_STREAM } else { 0 },
            stream: stream.number.get(),
            length: len,
        };
        out.reserve(HEADER_SIZE + len as usize)?;
        write_header(out, header)?;
        feed.take(stream.tag, len, out)?;
        self.window -= len;
        let initial = self.initial;
        let credit = lowered_credit(&initial, stream.credit, len);
        self.live.put(
            place,
            LiveStream {
                number: stream.number,
                tag: stream.tag,
                head: stream.head,
                finished: ends,
                credit,
            },
        );
        Ok(true)
    }
}

/// Encodes the header block of a request, in memory that has held others.
fn encode_block(block: &mut Vec<u8>, fields: &Fields) -> Result<(), NoMemory>
    requires { list_size fields.now ≤ 16384 }
    ensures block { OnOk result (block.new.items ≡ block_bytes fields.now) }
    ensures fits { OnOk result (length block.new.items < 16384) }
{
    block.clear();
    append_fields(block, fields)?;
    Ok(())
}
