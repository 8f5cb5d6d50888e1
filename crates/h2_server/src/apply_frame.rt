// What a whole frame does to a link, by its type.
ghost use Rattle.std.specs.Prelude.{◌≡◌, ◌<◌, ◌^◌, length, IfOk, OnOk};
ghost use Rattle.h2_frame.specs.Frames.{has_flag};
ghost use Rattle.h2_frame.specs.Numbers.{headers_type, ping_type, window_update_type};
ghost use Rattle.h2_frame.specs.Payloads.{reset_code};
ghost use Rattle.h2_frame.specs.Steps.{seen};
ghost use Rattle.h2_server.specs.Outcomes.{outcome_of};
ghost use Rattle.h2_server.specs.Steps.{reported, applied, plain_reported, opened, trailed, listed, block_read, block_held, headers_reported, continuation_reported, link_updated, stream_updated, data_reported, news_of, reset_reported, update_reported, settings_reported, ping_reported, found_from, is_asking, is_numbered};

use crate::block::{BLOCK_LIMIT, OpenBlock};
use crate::control::{Control, Controls, Increment};
use crate::effect::{Effect, request_effect, trailers_effect, window_effect};
use crate::judge::link_error;
use crate::live::{LiveStream, StreamNumber};
use crate::news::RequestNews;
use crate::setting::{ClientSettings, with_settings};
use crate::state::State;
use grpc_base::error_code::{COMPRESSION_ERROR, ENHANCE_YOUR_CALM};
use grpc_base::{Fields, NoMemory, Octets, Text};
use h2_frame::{Frame, flags, kinds};
use h2_hpack::HpackFault;
use std::alloc::Global;

/// The news of a frame, or the code of the link error that it turns out to make.
type Outcome = Result<Option<RequestNews>, u32>;

fn has_flag(frame: Frame, flag: u8) -> bool
    ensures { result ≡ has_flag frame.entry.flags flag }
{
    frame.flags & flag != 0
}

impl State {
    /// A whole frame.
    pub(crate) fn apply_frame(
        &mut self,
        alloc: Global,
        frame: Frame,
    ) -> Result<Option<RequestNews>, NoMemory>
        ensures { IfOk result (λ news. record { wire = self.new; news = news } ≡ reported self.old (seen frame.entry)) }
    {
        if let Some(code) = link_error(self, frame) {
            return Ok(self.break_off(alloc, code));
        }
        match self.apply(alloc, frame)? {
            Ok(news) => Ok(news),
            Err(code) => Ok(self.break_off(alloc, code)),
        }
    }

    /// A frame that breaks no rule of the link, but that its header block may turn out to be bad.
    fn apply(&mut self, alloc: Global, frame: Frame) -> Result<Outcome, NoMemory>
        ensures { IfOk result (λ r. outcome_of r self.new ≡ applied self.old (seen frame.entry)) }
    {
        match frame.kind {
            kinds::HEADERS => self.apply_headers(alloc, frame),
            kinds::CONTINUATION => self.apply_continuation(frame),
            _ => Ok(Ok(self.apply_plain(alloc, frame)?)),
        }
    }

    /// A frame without a header block.
    fn apply_plain(&mut self, alloc: Global, frame: Frame) -> Result<Option<RequestNews>, NoMemory>
        ensures { IfOk result (λ news. record { wire = self.new; news = news } ≡ plain_reported self.old (seen frame.entry)) }
    {
        match frame.kind {
            kinds::DATA => self.apply_data(alloc, frame),
            kinds::RST_STREAM => self.apply_reset(frame.stream, frame.reset_code()),
            kinds::SETTINGS => self.apply_settings(frame),
            kinds::PING => self.apply_ping(frame),
            kinds::WINDOW_UPDATE => self.apply_update(frame),
            _ => Ok(None),
        }
    }

    fn apply_headers(&mut self, alloc: Global, frame: Frame) -> Result<Outcome, NoMemory>
        requires { frame.kind ≡ headers_type }
        ensures { IfOk result (λ r. outcome_of r self.new ≡ headers_reported self.old (seen frame.entry)) }
    {
        let number = StreamNumber::of_headers(frame);
        let ends = has_flag(frame, flags::END_STREAM);
        if has_flag(frame, flags::END_HEADERS) {
            return self.read_block(number, ends, frame.content());
        }
        let bytes = Text::of_slice(alloc, frame.content())?;
        Ok(self.hold(number, ends, bytes))
    }

    fn apply_continuation(&mut self, frame: Frame) -> Result<Outcome, NoMemory>
        ensures { IfOk result (λ r. outcome_of r self.new ≡ continuation_reported self.old (seen frame.entry) self.old.block) }
    {
        let Some(block) = self.block.take() else {
            return Ok(Ok(None));
        };
        let OpenBlock {
            number,
            ends,
            mut bytes,
        } = block;
        bytes.append(frame.payload)?;
        if has_flag(frame, flags::END_HEADERS) {
            return self.read_block(number, ends, bytes.as_slice());
        }
        Ok(self.hold(number, ends, bytes))
    }

    /// A header block that CONTINUATION is to complete.
    fn hold(&mut self, number: StreamNumber, ends: bool, bytes: Text) -> Outcome
        ensures { outcome_of result self.new ≡ block_held self.old (record { number = number; ends = ends; bytes = bytes }) }
    {
        if bytes.len() > BLOCK_LIMIT {
            return Err(ENHANCE_YOUR_CALM);
        }
        self.block = Some(OpenBlock {
            number,
            ends,
            bytes,
        });
        Ok(None)
    }

    /// A whole header block.
    fn read_block(
        &mut self,
        number: StreamNumber,
        ends: bool,
        bytes: &[u8],
    ) -> Result<Outcome, NoMemory>
        ensures { IfOk result (λ r. outcome_of r self.new ≡ block_read self.old (record { number = number; ends = ends; bytes = bytes.now })) }
    {
        match self.decoder.block(bytes) {
            Ok(_) if bytes.len() > BLOCK_LIMIT => Ok(Err(ENHANCE_YOUR_CALM)),
            Ok(fields) => Ok(Ok(self.list(fields, number, ends)?)),
            Err(fault) => match fault {
                HpackFault::NoMemory => Err(NoMemory),
                HpackFault::TooLong => Ok(Err(ENHANCE_YOUR_CALM)),
                _ => Ok(Err(COMPRESSION_ERROR)),
            },
        }
    }

    /// A whole header list.
    fn list(
        &mut self,
        fields: Fields,
        number: StreamNumber,
        end: bool,
    ) -> Result<Option<RequestNews>, NoMemory>
        ensures { IfOk result (λ news. record { wire = self.new; news = news } ≡ listed self.old fields number end) }
    {
        if self.last < number.get() {
            return self.open(fields, number, end);
        }
        self.trail(fields, number.get(), end)
    }

    /// The header list that opens a stream.
    fn open(
        &mut self,
        fields: Fields,
        number: StreamNumber,
        end: bool,
    ) -> Result<Option<RequestNews>, NoMemory>
        ensures { IfOk result (λ news. record { wire = self.new; news = news } ≡ opened self.old fields number end) }
    {
        self.live.push(LiveStream {
            number,
            ended: end,
            finished: false,
            credit: 0,
        })?;
        self.last = number.get();
        Ok(Some(RequestNews::Fields {
            stream: number.get(),
            fields,
            end,
        }))
    }

    /// A header list after the first one of its stream.
    fn trail(
        &mut self,
        fields: Fields,
        number: u32,
        end: bool,
    ) -> Result<Option<RequestNews>, NoMemory>
        ensures { IfOk result (λ news. record { wire = self.new; news = news } ≡ trailed self.old fields end (found_from (is_asking number) 0 self.old.live)) }
    {
        let Some((place, stream)) = self.live.asking(number) else {
            return Ok(None);
        };
        let number = stream.number;
        let effect = trailers_effect(&stream, end);
        let reported = Some(RequestNews::Fields {
            stream: number.get(),
            fields,
            end,
        });
        let news = news_of(number, reported, &effect);
        self.apply_effect(place, number, effect)?;
        Ok(news)
    }

    fn apply_data(&mut self, alloc: Global, frame: Frame) -> Result<Option<RequestNews>, NoMemory>
        ensures { IfOk result (λ news. record { wire = self.new; news = news } ≡ data_reported self.old (seen frame.entry) (found_from (is_asking frame.entry.stream) 0 self.old.live)) }
    {
        let len = frame.payload.len() as u32;
        update_link(&mut self.queue, len)?;
        let Some((place, stream)) = self.live.asking(frame.stream) else {
            return Ok(None);
        };
        let number = stream.number;
        let end = has_flag(frame, flags::END_STREAM);
        update_stream(&mut self.queue, number, len, end)?;
        let effect = request_effect(&stream, end);
        let octets = Octets::of_slice(alloc, frame.content())?;
        self.apply_effect(place, number, effect)?;
        Ok(Some(RequestNews::Data {
            stream: number.get(),
            octets,
            end,
        }))
    }

    fn apply_reset(&mut self, number: u32, code: u32) -> Result<Option<RequestNews>, NoMemory>
        ensures { IfOk result (λ news. record { wire = self.new; news = news } ≡ reset_reported self.old code (found_from (is_numbered number) 0 self.old.live)) }
    {
        let Some((place, stream)) = self.live.numbered(number) else {
            return Ok(None);
        };
        let number = stream.number;
        self.apply_effect(place, number, Effect::Closes)?;
        Ok(Some(RequestNews::Reset {
            stream: number.get(),
            code,
        }))
    }

    fn apply_update(&mut self, frame: Frame) -> Result<Option<RequestNews>, NoMemory>
        requires { frame.kind ≡ window_update_type }
        ensures { IfOk result (λ news. record { wire = self.new; news = news } ≡ update_reported self.old (seen frame.entry)) }
    {
        let by = frame.increment();
        if frame.stream == 0 {
            self.window = self.window.saturating_add(by);
            return Ok(None);
        }
        let Some((place, stream)) = self.live.numbered(frame.stream) else {
            return Ok(None);
        };
        let number = stream.number;
        let initial = self.initial;
        let effect = window_effect(&initial, &stream, by);
        let news = news_of(number, None, &effect);
        self.apply_effect(place, number, effect)?;
        Ok(news)
    }

    fn apply_settings(&mut self, frame: Frame) -> Result<Option<RequestNews>, NoMemory>
        ensures { IfOk result (λ news. record { wire = self.new; news = news } ≡ settings_reported self.old (seen frame.entry)) }
    {
        if has_flag(frame, flags::ACK) {
            return Ok(None);
        }
        let old = ClientSettings {
            initial: self.initial,
            resizes: false,
        };
        let settings = with_settings(old, frame.payload);
        self.queue.push(Control::SettingsAck {
            resizes: settings.resizes,
        })?;
        self.initial = settings.initial;
        self.ready = true;
        Ok(None)
    }

    fn apply_ping(&mut self, frame: Frame) -> Result<Option<RequestNews>, NoMemory>
        requires { frame.kind ≡ ping_type }
        ensures { IfOk result (λ news. record { wire = self.new; news = news } ≡ ping_reported self.old (seen frame.entry)) }
    {
        if !has_flag(frame, flags::ACK) {
            let word = frame.ping_word();
            self.queue.push(Control::PingAck { word })?;
        }
        Ok(None)
    }
}

/// These news, or those of a stream error.
fn news_of(
    number: StreamNumber,
    reported: Option<RequestNews>,
    effect: &Effect,
) -> Option<RequestNews>
    ensures { result ≡ news_of number reported effect.now }
{
    match effect {
        Effect::Faults(code) => Some(RequestNews::Fault {
            stream: number.get(),
            code: *code,
        }),
        _ => reported,
    }
}

/// Gives the bytes of DATA back to the link's window.
fn update_link(queue: &mut Controls, len: u32) -> Result<(), NoMemory>
    requires { len < 2 ^ 31 }
    ensures { OnOk result (queue.new ≡ link_updated len queue.old) }
{
    match Increment::of_len(len) {
        Some(by) => queue.push(Control::LinkUpdate { by }),
        None => Ok(()),
    }
}

/// Gives the bytes of DATA back to its stream's window.
fn update_stream(
    queue: &mut Controls,
    stream: StreamNumber,
    len: u32,
    end: bool,
) -> Result<(), NoMemory>
    requires { len < 2 ^ 31 }
    ensures { OnOk result (queue.new ≡ stream_updated stream len end queue.old) }
{
    if end {
        return Ok(());
    }
    match Increment::of_len(len) {
        Some(by) => queue.push(Control::StreamUpdate { stream, by }),
        None => Ok(()),
    }
}
