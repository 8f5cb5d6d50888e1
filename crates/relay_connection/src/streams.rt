// The streams of a client, in the order of their opening.
ghost use Rattle.std.specs.Prelude.{◌≡◌, ◌<◌, ◌++◌, IfSome, OnOk, length, position, slice_get};
ghost use Rattle.std.specs.List.{remove};
ghost use Rattle.relay_connection.specs.Streams.{cancels, given_to, is_numbered, may_send, put, sent, settled, stream_reported};

use crate::stream::{RelayStream, StreamNews};
use bytes::BytesMut;
use grpc_base::{NoMemory, Reply};
use h2_server::ServerLink;
use relay_asks::RelayAsk;
use std::alloc::Global;

/// The place of the stream with this number.
pub(crate) fn place_of(streams: &[RelayStream], number: u32) -> Option<usize>
    ensures place { result ≡ position (is_numbered number) streams.now }
    ensures within { IfSome result (λ place. place < length streams.now) }
{
    streams.iter().position(|s| s.is_numbered(number))
}

/// The place of the first stream that may send something now.
pub(crate) fn next_place(streams: &[RelayStream], link: &ServerLink) -> Option<usize>
    ensures place { result ≡ position (may_send link.now.wire) streams.now }
    ensures within { IfSome result (λ place. place < length streams.now) }
{
    streams.iter().position(|s| s.may_send(link))
}

/// Takes the stream at a place off.
fn remove_stream(streams: &mut Vec<RelayStream>, place: usize)
    requires { place < length streams.old.items }
    ensures { streams.new.items ≡ remove streams.old.items place }
{
    let _stream = streams.remove(place);
}

/// Takes the stream at a place off, where it is over.
fn settle(streams: &mut Vec<RelayStream>, place: usize)
    requires { place < length streams.old.items }
    ensures { IfSome (slice_get streams.old.items place) (λ s. streams.new.items ≡ settled streams.old.items place s) }
{
    if streams[place].is_over() {
        remove_stream(streams, place);
    }
}

/// What the link reports of the stream at a place.
pub(crate) fn receive_at(
    alloc: Global,
    streams: &mut Vec<RelayStream>,
    place: usize,
    news: &StreamNews,
    asks: &mut Vec<RelayAsk>,
) -> Result<(), NoMemory>
    requires { place < length streams.old.items }
    ensures streams { OnOk result (IfSome (slice_get streams.old.items place) (λ s. streams.new.items ≡ put streams.old.items place (stream_reported s news.now).stream)) }
    ensures asks { OnOk result (IfSome (slice_get streams.old.items place) (λ s. asks.new.items ≡ asks.old.items ++ (stream_reported s news.now).asks)) }
{
    streams[place].receive(alloc, news, asks)?;
    settle(streams, place);
    Ok(())
}

/// Sends the next frame of the stream at a place.
pub(crate) fn send_at(
    streams: &mut Vec<RelayStream>,
    place: usize,
    link: &mut ServerLink,
    out: &mut BytesMut,
) -> Result<(), NoMemory>
    requires { place < length streams.old.items }
    ensures streams { OnOk result (IfSome (slice_get streams.old.items place) (λ s. streams.new.items ≡ put streams.old.items place (sent link.old.wire s).stream)) }
    ensures link { OnOk result (IfSome (slice_get streams.old.items place) (λ s. link.new ≡ record link.old { wire = (sent link.old.wire s).wire })) }
    ensures out { OnOk result (IfSome (slice_get streams.old.items place) (λ s. out.new.items ≡ out.old.items ++ (sent link.old.wire s).octets)) }
{
    streams[place].send(link, out)?;
    settle(streams, place);
    Ok(())
}

/// Gives an item to the stream at a place, where its call is open.
pub(crate) fn give_at(
    streams: &mut Vec<RelayStream>,
    place: usize,
    item: &Reply,
) -> Result<(), NoMemory>
    requires { place < length streams.old.items }
    ensures { OnOk result (IfSome (slice_get streams.old.items place) (λ s. streams.new.items ≡ given_to streams.old.items place s item.now)) }
{
    if !streams[place].asking.is_open() {
        return Ok(());
    }
    streams[place].give(item)?;
    Ok(())
}

/// Asks a Cancel for each call that is open.
pub(crate) fn cancel_all(streams: &[RelayStream], asks: &mut Vec<RelayAsk>) -> Result<(), NoMemory>
    ensures { OnOk result (asks.new.items ≡ asks.old.items ++ cancels streams.now) }
{
    for stream in streams {
        stream.asking.ask_cancel(asks)?;
    }
    Ok(())
}
