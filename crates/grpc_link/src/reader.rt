// The reader of one response.
ghost use Rattle.std.specs.Prelude.{◌≡◌, ◌++◌, ◌∷◌, ◌||◌, [], IfOk, OnOk, is_some, map, option_to_list, true};
ghost use Rattle.grpc_frame.specs.Reader.{given, is_whole};
ghost use Rattle.grpc_link.specs.Readers.{data_by, ended, headers_by, reader_for, stepped};
ghost use Rattle.grpc_link.specs.Response.{data_end, data_large, end_gained, headers_end, large_gained, message_news, no_response};

use crate::ends::{end_without_block, headers_end, is_interim, reset_end, unseen_end};
use attempt_ledger::{EndNews, News, RowCause};
use grpc_base::{Code, Fields, Items, NoMemory, Octets};
use grpc_frame::{MessageFault, MessageReader};
use grpc_meta::shown;
use h2_link::{LinkNews, http_status};
use std::alloc::Global;
use std::marker::Model;

/// Reads the response on one stream from what its link reports. No byte of a message is kept once the message was reported.
#[derive(Debug, Drop)]
pub struct ResponseReader {
    alloc: Global,
    /// Whether the request's HEADERS were sent.
    opened: bool,
    head: bool,
    over: bool,
    messages: MessageReader,
}

impl Model for ResponseReader {
    ghost use Rattle.grpc_link.specs.Readers.{ReaderSeen};

    ghost Value = { ReaderSeen };

    ghost view = { λ r. record { opened = r.opened; head = r.head; over = r.over; messages = r.messages } };
}

impl ResponseReader {
    /// The reader of a response of which nothing came; no message may be longer than the limit.
    pub fn new(alloc: Global, limit: u32) -> ResponseReader
        ensures { result ≡ reader_for limit no_response }
    {
        ResponseReader {
            alloc,
            opened: false,
            head: false,
            over: false,
            messages: MessageReader::new(alloc, limit),
        }
    }

    /// The request's HEADERS were sent.
    pub fn open(&mut self)
        ensures { self.new ≡ record self.old { opened = true } }
    {
        self.opened = true;
    }

    /// Whether nothing more is read: the response has an end, or a message above the limit.
    pub fn is_over(&self) -> bool
        ensures { result ≡ self.now.over }
    {
        self.over
    }

    /// Takes news of the link that are of this tag, and reports what the response gained. On out of memory news are lost:
    /// the reader is of no use any more.
    pub fn step(&mut self, tag: u64, news: LinkNews) -> Result<Items<News>, NoMemory>
        ensures news { IfOk result (λ n. n ≡ (stepped self.old tag news).news) }
        ensures after { OnOk result (self.new ≡ (stepped self.old tag news).reader) }
    {
        let alloc = self.alloc;
        if self.over {
            return Ok(Items::new(alloc));
        }
        match news {
            LinkNews::Fields {
                tag: _,
                fields,
                end,
                seen,
            } => self.take_headers(tag, fields, end, seen),
            LinkNews::Data {
                tag: _,
                octets,
                end,
                seen,
            } => self.take_data(tag, octets, end, seen),
            LinkNews::Reset { tag: _, code, seen } => {
                let end = reset_end(alloc, self.head, code, seen);
                self.end_with(tag, end)
            }
            LinkNews::Fault {
                tag: _,
                code: _,
                seen,
            } => {
                let end = end_without_block(alloc, Code::Internal, RowCause::Framing, false, seen);
                self.end_with(tag, end)
            }
            LinkNews::Unseen { tag: _, seen } => {
                let end = unseen_end(alloc, self.opened, seen);
                self.end_with(tag, end)
            }
            LinkNews::Ready | LinkNews::Retiring | LinkNews::Broken { code: _ } => {
                Ok(Items::new(alloc))
            }
        }
    }

    // The response has this end.
    fn end_with(&mut self, tag: u64, end: EndNews) -> Result<Items<News>, NoMemory>
        ensures news { IfOk result (λ n. n ≡ (ended self.old tag end).news) }
        ensures after { OnOk result (self.new ≡ (ended self.old tag end).reader) }
    {
        self.over = true;
        one(self.alloc, News::Ended { tag, end })
    }

    fn take_headers(
        &mut self,
        tag: u64,
        fields: Fields,
        ends: bool,
        seen: u64,
    ) -> Result<Items<News>, NoMemory>
        ensures news { IfOk result (λ n. n ≡ (headers_by self.old tag fields seen (headers_end self.old.head (is_whole self.old.messages) fields ends seen)).news) }
        ensures after { OnOk result (self.new ≡ (headers_by self.old tag fields seen (headers_end self.old.head (is_whole self.old.messages) fields ends seen)).reader) }
    {
        let alloc = self.alloc;
        let whole = self.messages.whole();
        if let Some(end) = headers_end(alloc, self.head, whole, &fields, ends, seen)? {
            return self.end_with(tag, end);
        }
        if is_interim(http_status(fields.as_slice())) {
            return Ok(Items::new(alloc));
        }
        self.head = true;
        let meta = shown(alloc, &fields)?;
        one(alloc, News::Head { tag, meta, seen })
    }

    fn take_data(
        &mut self,
        tag: u64,
        octets: Octets,
        ends: bool,
        seen: u64,
    ) -> Result<Items<News>, NoMemory>
        ensures news { IfOk result (λ n. n ≡ (data_by self.old tag (given self.old.messages octets) ends seen).news) }
        ensures after { OnOk result (self.new ≡ (data_by self.old tag (given self.old.messages octets) ends seen).reader) }
    {
        let alloc = self.alloc;
        let fed = self.messages.feed(&octets)?;
        let messages = message_news(alloc, tag, fed.messages, seen)?;
        let end = data_end(alloc, tag, fed.fault, ends, seen);
        self.over = end.is_some();
        with_last(messages, end)
    }
}

// News alone.
fn one(alloc: Global, news: News) -> Result<Items<News>, NoMemory>
    ensures { IfOk result (λ n. n ≡ news ∷ []) }
{
    let mut all = Items::new(alloc);
    all.push(news)?;
    Ok(all)
}

fn with_last(news: Items<News>, last: Option<News>) -> Result<Items<News>, NoMemory>
    ensures { IfOk result (λ n. n ≡ news ++ option_to_list last) }
{
    let mut news = news;
    if let Some(last) = last {
        news.push(last)?;
    }
    Ok(news)
}

// News of messages in their order.
fn message_news(
    alloc: Global,
    tag: u64,
    messages: Vec<Octets>,
    seen: u64,
) -> Result<Items<News>, NoMemory>
    ensures { IfOk result (λ n. n ≡ map (message_news tag seen) messages.items) }
{
    let mut news = Items::new(alloc);
    let mut rest = messages.into_iter();
    while let Some(octets) = rest.next() {
        news.push(News::Message { tag, octets, seen })?;
    }
    Ok(news)
}

// What DATA brings after its messages: a message above the limit, or an end.
fn data_end(
    alloc: Global,
    tag: u64,
    fault: Option<MessageFault>,
    ends: bool,
    seen: u64,
) -> Option<News>
    ensures news { option_to_list result ≡ large_gained tag (data_large fault seen) ++ end_gained tag (data_end fault ends seen) }
    ensures over { is_some result ≡ (is_some (data_end fault ends seen) || is_some (data_large fault seen)) }
{
    match fault {
        Some(MessageFault::BadFlag) => Some(News::Ended {
            tag,
            end: end_without_block(alloc, Code::Internal, RowCause::Framing, false, seen),
        }),
        Some(MessageFault::TooLarge { length: _ }) => Some(News::TooLarge { tag, seen }),
        None if ends => Some(News::Ended {
            tag,
            end: end_without_block(alloc, Code::Unknown, RowCause::Http, false, seen),
        }),
        None => None,
    }
}
