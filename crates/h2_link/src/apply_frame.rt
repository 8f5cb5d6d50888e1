// What a whole frame does to a link, by its type.
ghost use Rattle.std.specs.Prelude.{◌≡◌, ◌<◌, ◌≤◌, ◌+◌, ◌^◌, ◌++◌, ◌∷◌, [], length, map, IfOk, OnOk, None};
ghost use Rattle.h2_frame.specs.Frames.{has_flag};
ghost use Rattle.h2_frame.specs.Numbers.{data_type, headers_type, rst_stream_type, settings_type, ping_type, goaway_type, window_update_type, continuation_type};
ghost use Rattle.h2_frame.specs.Payloads.{reset_code, last_stream, increment};
ghost use Rattle.h2_frame.specs.Steps.{seen};
ghost use Rattle.h2_link.specs.Outcomes.{outcome_of};
ghost use Rattle.h2_link.specs.Steps.{reported, applied, plain_reported, listed, block_read, block_held, headers_reported, continuation_reported, link_updated, stream_updated, data_reported, data_news, fault_news, reset_reported, window_reported, update_reported, settings_reported, ping_reported, goaway_reported, found_from, is_numbered, all_reset, unseen, unseen_stream};

use crate::block::{BLOCK_LIMIT, OpenBlock};
use crate::control::{Control, Controls, Increment};
use crate::effect::{Effect, data_effect, headers_effect, window_effect};
use crate::judge::link_error;
use crate::live::LiveStream;
use crate::news::LinkNews;
use crate::setting::{Settings, with_settings};
use crate::state::{State, one_news};
use crate::status::http_status;
use crate::waiting::Waiting;
use grpc_base::error_code::{CANCEL, COMPRESSION_ERROR, ENHANCE_YOUR_CALM};
use grpc_base::{Fields, Items, NoMemory, Octets, Text};
use h2_frame::{Frame, HEADER_SIZE, flags, kinds};
use h2_hpack::HpackFault;
use std::alloc::Global;

/// The news of a frame, or the code of the link error that it turns out to make.
type Outcome = Result<Items<LinkNews>, u32>;

fn has_flag(frame: Frame, flag: u8) -> bool
    ensures { result ≡ has_flag frame.entry.flags flag }
{
    frame.flags & flag != 0
}

impl State {
    /// A whole frame.
    pub(crate) fn apply_frame(
        &mut self,
        alloc: Global,
        frame: Frame,
    ) -> Result<Items<LinkNews>, NoMemory>
        ensures { IfOk result (λ news. record { wire = self.new; news = news } ≡ reported self.old (seen frame.entry)) }
    {
        let read = self.read;
        if let Some(code) = link_error(self, frame) {
            return self.break_off(alloc, read, code);
        }
        let len = HEADER_SIZE as u64 + frame.payload.len() as u64;
        let seen = read.saturating_add(len);
        self.queue.seal();
        match self.apply(alloc, frame, seen)? {
            Ok(news) => {
                self.read = seen;
                Ok(news)
            }
            Err(code) => self.break_off(alloc, read, code),
        }
    }

    /// A frame that breaks no rule of the link, but that its header block may turn out to be bad.
    fn apply(&mut self, alloc: Global, frame: Frame, at: u64) -> Result<Outcome, NoMemory>
        ensures { IfOk result (λ r. outcome_of r self.new ≡ applied self.old (seen frame.entry) at) }
    {
        match frame.kind {
            kinds::HEADERS => self.apply_headers(alloc, frame, at),
            kinds::CONTINUATION => self.apply_continuation(alloc, frame, at),
            _ => Ok(Ok(self.apply_plain(alloc, frame, at)?)),
        }
    }

    /// A frame without a header block.
    fn apply_plain(
        &mut self,
        alloc: Global,
        frame: Frame,
        at: u64,
    ) -> Result<Items<LinkNews>, NoMemory>
        ensures { IfOk result (λ news. record { wire = self.new; news = news } ≡ plain_reported self.old (seen frame.entry) at) }
    {
        match frame.kind {
            kinds::DATA => self.apply_data(alloc, frame, at),
            kinds::RST_STREAM => self.apply_reset(alloc, frame.stream, frame.reset_code(), at),
            kinds::SETTINGS => self.apply_settings(alloc, frame),
            kinds::PING => self.apply_ping(alloc, frame),
            kinds::GOAWAY => self.apply_goaway(alloc, frame.last_stream(), at),
            kinds::WINDOW_UPDATE => self.apply_update(alloc, frame, at),
            _ => Ok(Items::new(alloc)),
        }
    }

    fn apply_headers(&mut self, alloc: Global, frame: Frame, at: u64) -> Result<Outcome, NoMemory>
        ensures { IfOk result (λ r. outcome_of r self.new ≡ headers_reported self.old (seen frame.entry) at) }
    {
        let ends = has_flag(frame, flags::END_STREAM);
        if has_flag(frame, flags::END_HEADERS) {
            return self.read_block(alloc, frame.stream, ends, frame.content(), at);
        }
        let bytes = Text::of_slice(alloc, frame.content())?;
        Ok(self.hold(alloc, frame.stream, ends, bytes))
    }

    fn apply_continuation(
        &mut self,
        alloc: Global,
        frame: Frame,
        at: u64,
    ) -> Result<Outcome, NoMemory>
        ensures { IfOk result (λ r. outcome_of r self.new ≡ continuation_reported self.old (seen frame.entry) at self.old.block) }
    {
        let Some(block) = self.block.take() else {
            return Ok(Ok(Items::new(alloc)));
        };
        let OpenBlock {
            number,
            ends,
            mut bytes,
        } = block;
        bytes.append(frame.payload)?;
        if has_flag(frame, flags::END_HEADERS) {
            return self.read_block(alloc, number, ends, bytes.as_slice(), at);
        }
        Ok(self.hold(alloc, number, ends, bytes))
    }

    /// A header block that CONTINUATION is to complete.
    fn hold(&mut self, alloc: Global, number: u32, ends: bool, bytes: Text) -> Outcome
        ensures { outcome_of result self.new ≡ block_held self.old (record { number = number; ends = ends; bytes = bytes }) }
    {
        if bytes.len() > BLOCK_LIMIT {
            return Err(ENHANCE_YOUR_CALM);
        }
        self.block = Some(OpenBlock {
            number,
            ends,
            bytes,
        });
        Ok(Items::new(alloc))
    }

    /// A whole header block.
    fn read_block(
        &mut self,
        alloc: Global,
        number: u32,
        ends: bool,
        bytes: &[u8],
        seen: u64,
    ) -> Result<Outcome, NoMemory>
        ensures { IfOk result (λ r. outcome_of r self.new ≡ block_read self.old (record { number = number; ends = ends; bytes = bytes.now }) seen) }
    {
        match self.decoder.block(bytes) {
            Ok(_) if bytes.len() > BLOCK_LIMIT => Ok(Err(ENHANCE_YOUR_CALM)),
            Ok(fields) => Ok(Ok(self.list(alloc, fields, number, ends, seen)?)),
            Err(fault) => match fault {
                HpackFault::NoMemory => Err(NoMemory),
                HpackFault::TooLong => Ok(Err(ENHANCE_YOUR_CALM)),
                _ => Ok(Err(COMPRESSION_ERROR)),
            },
        }
    }

    /// A whole header list.
    fn list(
        &mut self,
        alloc: Global,
        fields: Fields,
        number: u32,
        end: bool,
        seen: u64,
    ) -> Result<Items<LinkNews>, NoMemory>
        ensures { IfOk result (λ news. record { wire = self.new; news = news } ≡ listed self.old fields end seen (found_from (is_numbered number) 0 self.old.live)) }
    {
        let mut news = Items::new(alloc);
        let Some((place, stream)) = self.live.numbered(number) else {
            return Ok(news);
        };
        let tag = stream.tag;
        let effect = headers_effect(&stream, http_status(fields.as_slice()), end);
        news.push(LinkNews::Fields {
            tag,
            fields,
            end,
            seen,
        })?;
        push_fault(&mut news, tag, seen, &effect)?;
        let number = stream.number;
        self.apply_effect(place, number, effect)?;
        Ok(news)
    }

    fn apply_data(
        &mut self,
        alloc: Global,
        frame: Frame,
        at: u64,
    ) -> Result<Items<LinkNews>, NoMemory>
        ensures { IfOk result (λ news. record { wire = self.new; news = news } ≡ data_reported self.old (seen frame.entry) at (found_from (is_numbered frame.entry.stream) 0 self.old.live)) }
    {
        let len = frame.payload.len() as u32;
        update_link(&mut self.queue, len)?;
        let Some((place, stream)) = self.live.numbered(frame.stream) else {
            return Ok(Items::new(alloc));
        };
        let end = has_flag(frame, flags::END_STREAM);
        update_stream(&mut self.queue, &stream, len, end)?;
        let effect = data_effect(&stream, end);
        let news = data_news(alloc, stream.tag, frame.content(), end, at, &effect)?;
        let number = stream.number;
        self.apply_effect(place, number, effect)?;
        Ok(news)
    }

    fn apply_reset(
        &mut self,
        alloc: Global,
        number: u32,
        code: u32,
        seen: u64,
    ) -> Result<Items<LinkNews>, NoMemory>
        ensures { IfOk result (λ news. record { wire = self.new; news = news } ≡ reset_reported self.old code seen (found_from (is_numbered number) 0 self.old.live)) }
    {
        let Some((place, stream)) = self.live.numbered(number) else {
            return Ok(Items::new(alloc));
        };
        let tag = stream.tag;
        let number = stream.number;
        self.apply_effect(place, number, Effect::Ends(None))?;
        one_news(alloc, LinkNews::Reset { tag, code, seen })
    }

    fn apply_update(
        &mut self,
        alloc: Global,
        frame: Frame,
        at: u64,
    ) -> Result<Items<LinkNews>, NoMemory>
        requires kind { frame.kind ≡ window_update_type }
        ensures { IfOk result (λ news. record { wire = self.new; news = news } ≡ update_reported self.old (seen frame.entry) at) }
    {
        let by = frame.increment();
        let mut news = Items::new(alloc);
        if frame.stream == 0 {
            self.window = self.window.saturating_add(by);
            return Ok(news);
        }
        let Some((place, stream)) = self.live.numbered(frame.stream) else {
            return Ok(news);
        };
        let initial = self.initial;
        let effect = window_effect(&initial, &stream, by);
        push_fault(&mut news, stream.tag, at, &effect)?;
        let number = stream.number;
        self.apply_effect(place, number, effect)?;
        Ok(news)
    }

    fn apply_settings(&mut self, alloc: Global, frame: Frame) -> Result<Items<LinkNews>, NoMemory>
        ensures { IfOk result (λ news. record { wire = self.new; news = news } ≡ settings_reported self.old (seen frame.entry)) }
    {
        let mut news = Items::new(alloc);
        if has_flag(frame, flags::ACK) {
            return Ok(news);
        }
        let old = Settings {
            limit: self.limit,
            initial: self.initial,
            resizes: false,
        };
        let settings = with_settings(old, frame.payload);
        self.queue.push(Control::SettingsAck {
            resizes: settings.resizes,
        })?;
        self.limit = settings.limit;
        self.initial = settings.initial;
        if !self.ready {
            self.ready = true;
            news.push(LinkNews::Ready)?;
        }
        Ok(news)
    }

    fn apply_ping(&mut self, alloc: Global, frame: Frame) -> Result<Items<LinkNews>, NoMemory>
        requires kind { frame.kind ≡ ping_type }
        ensures { IfOk result (λ news. record { wire = self.new; news = news } ≡ ping_reported self.old (seen frame.entry)) }
    {
        if !has_flag(frame, flags::ACK) {
            let word = frame.ping_word();
            self.queue.push(Control::PingAck { word })?;
        }
        Ok(Items::new(alloc))
    }

    fn apply_goaway(
        &mut self,
        alloc: Global,
        last: u32,
        seen: u64,
    ) -> Result<Items<LinkNews>, NoMemory>
        ensures { IfOk result (λ news. record { wire = self.new; news = news } ≡ goaway_reported self.old last seen) }
    {
        let gone = self.live.above(alloc, last)?;
        let kept = self.live.up_to(alloc, last)?;
        let mut news = Items::new(alloc);
        push_unseen_streams(&mut news, gone.as_slice(), seen)?;
        push_unseen_tags(&mut news, &mut self.waiting, seen)?;
        if !self.retiring {
            news.push(LinkNews::Retiring)?;
        }
        self.retiring = true;
        self.live = kept;
        reset_all(&mut self.queue, gone.as_slice())?;
        Ok(news)
    }
}

fn push_fault(
    news: &mut Items<LinkNews>,
    tag: u64,
    seen: u64,
    effect: &Effect,
) -> Result<(), NoMemory>
    ensures { OnOk result (news.new ≡ news.old ++ fault_news tag seen effect.now) }
{
    match effect {
        Effect::Faults(code) => news.push(LinkNews::Fault {
            tag,
            code: *code,
            seen,
        }),
        _ => Ok(()),
    }
}

fn data_news(
    alloc: Global,
    tag: u64,
    content: &[u8],
    end: bool,
    seen: u64,
    effect: &Effect,
) -> Result<Items<LinkNews>, NoMemory>
    ensures { IfOk result (λ news. news ≡ data_news tag content.now end seen effect.now) }
{
    if let Effect::Faults(code) = effect {
        return one_news(
            alloc,
            LinkNews::Fault {
                tag,
                code: *code,
                seen,
            },
        );
    }
    let octets = Octets::of_slice(alloc, content)?;
    one_news(
        alloc,
        LinkNews::Data {
            tag,
            octets,
            end,
            seen,
        },
    )
}

/// Gives the bytes of DATA back to the link's window.
fn update_link(queue: &mut Controls, len: u32) -> Result<(), NoMemory>
    requires { len < 2 ^ 31 }
    ensures { OnOk result (queue.new ≡ link_updated len queue.old) }
{
    match Increment::of_len(len) {
        Some(by) => queue.push(Control::LinkUpdate { by }),
        None => Ok(()),
    }
}

/// Gives the bytes of DATA back to its stream's window.
fn update_stream(
    queue: &mut Controls,
    stream: &LiveStream,
    len: u32,
    end: bool,
) -> Result<(), NoMemory>
    requires { len < 2 ^ 31 }
    ensures { OnOk result (queue.new ≡ stream_updated stream.now len end queue.old) }
{
    if end || !stream.head {
        return Ok(());
    }
    let number = stream.number;
    match Increment::of_len(len) {
        Some(by) => queue.push(Control::StreamUpdate { stream: number, by }),
        None => Ok(()),
    }
}

fn reset_all(queue: &mut Controls, streams: &[LiveStream]) -> Result<(), NoMemory>
    ensures { OnOk result (queue.new ≡ all_reset streams.now queue.old) }
{
    for stream in streams {
        queue.reset(stream.number, CANCEL)?;
    }
    Ok(())
}

fn push_unseen_streams(
    news: &mut Items<LinkNews>,
    streams: &[LiveStream],
    seen: u64,
) -> Result<(), NoMemory>
    ensures { OnOk result (news.new ≡ news.old ++ map (unseen_stream seen) streams.now) }
{
    for stream in streams {
        let tag = stream.tag;
        news.push(LinkNews::Unseen { tag, seen })?;
    }
    Ok(())
}

/// Reports all tags that wait, and takes them off.
#[tactic(auto, using(crate::proofs::Lists::none_first))]
fn push_unseen_tags(
    news: &mut Items<LinkNews>,
    waiting: &mut Waiting,
    seen: u64,
) -> Result<(), NoMemory>
    ensures news { OnOk result (news.new ≡ news.old ++ map (unseen seen) waiting.old) }
    ensures none { OnOk result (waiting.new ≡ []) }
{
    while let Some(tag) = waiting.first() {
        news.push(LinkNews::Unseen { tag, seen })?;
        waiting.pop_first();
    }
    Ok(())
}
