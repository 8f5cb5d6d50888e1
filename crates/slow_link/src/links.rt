// What passed on a link (RFC 9113, sections 3.4, 5.1, 6.5 and 6.8).
ghost use Rattle.std.specs.Prelude.{◌≡◌, ◌<◌, ◌==◌, [], ◌∷◌, IfSome, MatchOption, filter_map, length};
ghost use Rattle.std.specs.List.{list_any};
ghost use Rattle.std.specs.Option.{option_map_or};
ghost use Rattle.h2_frame.specs.Frames.{has_flag};
ghost use Rattle.h2_frame.specs.Numbers.{goaway_type};
ghost use Rattle.session_actions.specs.Words.{last_of};
ghost use Rattle.session_actions.specs.Links.{has_settings, has_written_end, is_retiring, is_settings, read_bytes, read_in, written_in};
ghost use Rattle.slow_link.specs.Parts.{is_end_of};

use h2_frame::{flags, kinds};
use session_actions::{Link, ReadFrame, Sent, Traffic, WireFrame};

/// The first of these frames that was read, and what passed after it.
pub(crate) fn first_read(traffic: &[Traffic]) -> Option<(&ReadFrame, &[Traffic])>
    ensures first { MatchOption result (filter_map read_in traffic.now ≡ []) (λ x. filter_map read_in traffic.now ≡ x.0.now ∷ filter_map read_in x.1.now) }
    ensures shorter { IfSome result (λ x. length x.1.now < length traffic.now) }
{
    let (first, rest) = traffic.split_first()?;
    match first {
        Traffic::Read { read } => Some((read, rest)),
        Traffic::Written { sent: _ } => first_read(rest),
    }
}

/// The first of these frames that was written, and what passed after it. The preface is none.
pub(crate) fn first_written(traffic: &[Traffic]) -> Option<(&WireFrame, &[Traffic])>
    ensures first { MatchOption result (filter_map written_in traffic.now ≡ []) (λ x. filter_map written_in traffic.now ≡ x.0.now ∷ filter_map written_in x.1.now) }
    ensures shorter { IfSome result (λ x. length x.1.now < length traffic.now) }
{
    let (first, rest) = traffic.split_first()?;
    match first {
        Traffic::Written {
            sent: Sent::Frame { frame },
        } => Some((frame, rest)),
        _ => first_written(rest),
    }
}

/// How many bytes of a link were read.
pub fn read_bytes(link: &Link) -> u64
    ensures { result ≡ read_bytes link.now }
{
    last_end(0, link.traffic.as_slice())
}

/// The end of the last of these frames that was read, or this one where none was.
#[tactic(auto, using(crate::proofs::LinkLaws::last_end_after))]
fn last_end(end: u64, traffic: &[Traffic]) -> u64
    ensures { result ≡ option_map_or (λ r. r.end) (last_of (filter_map read_in traffic.now)) end }
{
    match first_read(traffic) {
        Some((read, rest)) => last_end(read.end, rest),
        None => end,
    }
}

/// Whether a flag is set.
pub fn has_flag(flags: u8, flag: u8) -> bool
    ensures { result ≡ has_flag flags flag }
{
    flags & flag != 0
}

/// Whether a frame is SETTINGS without ACK (section 6.5).
pub fn is_settings(frame: &WireFrame) -> bool
    ensures { result ≡ is_settings frame.now }
{
    frame.kind == kinds::SETTINGS && !has_flag(frame.flags, flags::ACK)
}

/// Whether the server's connection preface came, its SETTINGS (section 3.4).
pub fn has_settings(link: &Link) -> bool
    ensures { result ≡ has_settings link.now }
{
    settings_among(link.traffic.as_slice())
}

fn settings_among(traffic: &[Traffic]) -> bool
    ensures { result ≡ list_any (λ r. is_settings r.frame) (filter_map read_in traffic.now) }
{
    match first_read(traffic) {
        Some((read, rest)) => is_settings(&read.frame) || settings_among(rest),
        None => false,
    }
}

/// Whether the server sent GOAWAY (section 6.8).
pub fn is_retiring(link: &Link) -> bool
    ensures { result ≡ is_retiring link.now }
{
    goaway_among(link.traffic.as_slice())
}

fn goaway_among(traffic: &[Traffic]) -> bool
    ensures { result ≡ list_any (λ r. r.frame.kind == goaway_type) (filter_map read_in traffic.now) }
{
    match first_read(traffic) {
        Some((read, rest)) => read.frame.kind == kinds::GOAWAY || goaway_among(rest),
        None => false,
    }
}

/// Whether the client closed its side of a stream: it wrote END_STREAM (section 5.1).
pub fn has_written_end(stream: u32, link: &Link) -> bool
    ensures { result ≡ has_written_end stream link.now }
{
    end_among(stream, link.traffic.as_slice())
}

fn end_among(stream: u32, traffic: &[Traffic]) -> bool
    ensures { result ≡ list_any (is_end_of stream) (filter_map written_in traffic.now) }
{
    match first_written(traffic) {
        Some((frame, rest)) => is_end_of(stream, frame) || end_among(stream, rest),
        None => false,
    }
}

/// Whether a frame is DATA on a stream with END_STREAM.
fn is_end_of(stream: u32, frame: &WireFrame) -> bool
    ensures { result ≡ is_end_of stream frame.now }
{
    frame.kind == kinds::DATA && frame.stream == stream && has_flag(frame.flags, flags::END_STREAM)
}
