// What a frame that is read or written adds.
ghost use Rattle.std.specs.Prelude.{◌≡◌, IfOk, OnOk, option_map};
ghost use Rattle.session_actions.specs.Words.{numbered};
ghost use Rattle.session_actions.specs.Writing.{frame_read, frame_written};
ghost use Rattle.slow_session.specs.Frames.{opened_by, owed_on, target_on, waiting_place, written_to};

use grpc_base::{Items, NoMemory};
use h2_frame::kinds;
use session_actions::{Link, ReadFrame, Seen, Sent, WireFrame};
use slow_attempts::numbered;
use slow_calls::{first_waiting, owed_for};
use slow_changes::stream_given;
use std::alloc::Global;

/// A link by its number, and the place of the first attempt that waits for a stream on it.
#[derive(Clone, Copy, Debug)]
pub struct Target {
    pub link: u32,
    pub place: Option<u64>,
}

/// A link by its number, and the control frames that are queued on it.
#[derive(Debug, Drop)]
pub struct Owed {
    pub link: u32,
    pub frames: Items<WireFrame>,
}

/// The place of the first attempt that waits for a stream on a link.
fn waiting_place(link: &Link, seen: &Seen) -> Option<u64>
    ensures { result ≡ waiting_place link.now seen.now }
{
    let attempt = first_waiting(link, seen)?;
    Some(attempt.place)
}

/// The link of a number, as a frame is written on it.
fn target_of(number: u32, seen: &Seen) -> Option<Target>
    ensures { result ≡ option_map (target_on seen.now) (numbered seen.now.links number) }
{
    let link = numbered(&seen.links, u64::from(number))?;
    Some(Target {
        link: link.number,
        place: waiting_place(link, seen),
    })
}

/// HEADERS that are written give their stream to the attempt at this place.
fn open_stream(alloc: Global, seen: &mut Seen, sent: &Sent, place: Option<u64>)
    ensures { seen.new ≡ opened_by sent.now place seen.old }
{
    let Sent::Frame { frame } = sent else {
        return;
    };
    if frame.kind != kinds::HEADERS {
        return;
    }
    if let Some(place) = place {
        stream_given(alloc, seen, place, frame.stream);
    }
}

/// A frame is written on a link.
fn written_to(alloc: Global, seen: &mut Seen, target: Target, sent: Sent) -> Result<(), NoMemory>
    ensures { OnOk result (seen.new ≡ written_to target sent seen.old) }
{
    open_stream(alloc, seen, &sent, target.place);
    slow_changes::frame_written(alloc, seen, target.link, sent)
}

/// A frame is written.
pub fn frame_written(alloc: Global, seen: &mut Seen, link: u32, sent: Sent) -> Result<(), NoMemory>
    ensures { OnOk result (seen.new ≡ frame_written link sent seen.old) }
{
    match target_of(link, seen) {
        Some(target) => written_to(alloc, seen, target, sent),
        None => Ok(()),
    }
}

/// What a frame that is read on the link of a number makes the client queue.
fn owed_by(
    alloc: Global,
    number: u32,
    frame: &WireFrame,
    seen: &Seen,
) -> Result<Option<Owed>, NoMemory>
    ensures { IfOk result (λ o. o ≡ option_map (owed_on frame.now seen.now) (numbered seen.now.links number)) }
{
    match numbered(&seen.links, u64::from(number)) {
        Some(link) => Ok(Some(Owed {
            link: link.number,
            frames: owed_for(alloc, frame, link, seen)?,
        })),
        None => Ok(None),
    }
}

/// A frame is read.
pub fn frame_read(
    alloc: Global,
    seen: &mut Seen,
    link: u32,
    read: ReadFrame,
) -> Result<(), NoMemory>
    ensures { OnOk result (seen.new ≡ frame_read link read seen.old) }
{
    match owed_by(alloc, link, &read.frame, seen)? {
        Some(owed) => {
            let Owed { link, frames } = owed;
            slow_changes::frame_read(alloc, seen, link, read, frames.into_vec())
        }
        None => Ok(()),
    }
}
