// The two pumps of a link: what came goes to the channel, and what the channel has to send goes out.
ghost use Rattle.std.specs.Prelude.{◌≡◌, ◌≤◌, Bool, true, false, Some, length};
ghost use Rattle.grpc_base.specs.Counts.{one_more};
ghost use Rattle.grpc_base.specs.declared.post.Look.TheVariants as look;
ghost use Rattle.gate_io.specs.Outside.{Appends, AppendsPrefix};
ghost use Rattle.live_pump.specs.Workers.{ReportsThat};
ghost use Rattle.live_pump.specs.Pumps.{Arrives, HandleSeen, InSeen, OutSeen, PumpsIn, PumpsOut, WritesOut, drained_of};

use crate::Pumped;
use crate::pumped::{answer_of, post_to};
use gate_io::{LinkIn, LinkOut, LinkRead, Pause, PollDelay, WriteAnswer};
use grpc_base::{Event, Glance, Octets, Post, PostError, Reply};
use std::alloc::Global;

/// The most bytes that one read takes.
const READ_BYTES: usize = 16_384;

/// The room that a Drain asks for.
const DRAIN_ROOM: u32 = 65_536;

/// Posts the bytes that came.
fn arrived<P: Post>(alloc: Global, post: &mut P, link: u32, piece: &[u8]) -> Pumped
    ensures posted { let before : HandleSeen = record { made = P.made post.old; errors = P.errors post.old; last = P.last_error post.old } in let after : HandleSeen = record { made = P.made post.new; errors = P.errors post.new; last = P.last_error post.new } in Arrives link piece.now before after result }
    ensures looks { (P.looks post.new ≡ P.looks post.old) × (P.last_look post.new ≡ P.last_look post.old) }
    ensures reports_that { let before : HandleSeen = record { made = P.made post.old; errors = P.errors post.old; last = P.last_error post.old } in let after : HandleSeen = record { made = P.made post.new; errors = P.errors post.new; last = P.last_error post.new } in ReportsThat before after result }
    ensures share { P.share post.new ≡ P.share post.old }
{
    match Octets::of_slice(alloc, piece) {
        Ok(piece) => post_to(post, Event::Arrived { link, piece }, Pumped::Going),
        Err(_) => Pumped::Failed(PostError::NoMemory { spent: false }),
    }
}

/// Reads a link once, posts what came of it, and says whether bytes came.
fn pump_read<P: Post, I: LinkIn>(
    alloc: Global,
    post: &mut P,
    input: &mut I,
    link: u32,
) -> (Pumped, bool)
    ensures posted { let before : HandleSeen = record { made = P.made post.old; errors = P.errors post.old; last = P.last_error post.old } in let after : HandleSeen = record { made = P.made post.new; errors = P.errors post.new; last = P.last_error post.new } in PumpsIn link (record { left = I.left input.old; faults = I.faults input.old; quiet = I.quiet input.old }) (record { left = I.left input.new; faults = I.faults input.new; quiet = I.quiet input.new }) before after result.0 }
    ensures looks { (P.looks post.new ≡ P.looks post.old) × (P.last_look post.new ≡ P.last_look post.old) }
    ensures reports_that { let before : HandleSeen = record { made = P.made post.old; errors = P.errors post.old; last = P.last_error post.old } in let after : HandleSeen = record { made = P.made post.new; errors = P.errors post.new; last = P.last_error post.new } in ReportsThat before after result.0 }
    ensures share { P.share post.new ≡ P.share post.old }
{
    let mut piece = [0u8; READ_BYTES];
    match input.read(&mut piece) {
        LinkRead::Got(count) => (arrived(alloc, post, link, &piece[..count]), true),
        LinkRead::Quiet => (Pumped::Going, false),
        LinkRead::End | LinkRead::Failed => {
            (post_to(post, Event::LinkLost { link }, Pumped::Lost), false)
        }
    }
}

/// Reads a link once without waiting, posts what came of it, and says whether bytes came.
pub(crate) fn read_link<P: Post, I: LinkIn>(
    alloc: Global,
    post: &mut P,
    poll_delay: &mut PollDelay,
    input: &mut I,
    link: u32,
) -> (Pumped, bool)
    ensures posted { let before : HandleSeen = record { made = P.made post.old; errors = P.errors post.old; last = P.last_error post.old } in let after : HandleSeen = record { made = P.made post.new; errors = P.errors post.new; last = P.last_error post.new } in PumpsIn link (record { left = I.left input.old; faults = I.faults input.old; quiet = I.quiet input.old }) (record { left = I.left input.new; faults = I.faults input.new; quiet = I.quiet input.new }) before after result.0 }
    ensures looks { (P.looks post.new ≡ P.looks post.old) × (P.last_look post.new ≡ P.last_look post.old) }
    ensures reports_that { let before : HandleSeen = record { made = P.made post.old; errors = P.errors post.old; last = P.last_error post.old } in let after : HandleSeen = record { made = P.made post.new; errors = P.errors post.new; last = P.last_error post.new } in ReportsThat before after result.0 }
    ensures share { P.share post.new ≡ P.share post.old }
{
    input.wait_at_most(Pause::None);
    let (read, came) = pump_read(alloc, post, input, link);
    if came {
        poll_delay.hit();
    } else {
        poll_delay.miss();
    }
    (read, came)
}

/// Reads a link once, into 16,384 bytes, and posts what came of it: the bytes as Arrived, LinkLost where the
/// link ended or the read failed, and nothing where the read was quiet.
pub fn pump_in<P: Post, I: LinkIn>(alloc: Global, post: &mut P, input: &mut I, link: u32) -> Pumped
    ensures posted { let before : HandleSeen = record { made = P.made post.old; errors = P.errors post.old; last = P.last_error post.old } in let after : HandleSeen = record { made = P.made post.new; errors = P.errors post.new; last = P.last_error post.new } in PumpsIn link (record { left = I.left input.old; faults = I.faults input.old; quiet = I.quiet input.old }) (record { left = I.left input.new; faults = I.faults input.new; quiet = I.quiet input.new }) before after result }
    ensures looks { (P.looks post.new ≡ P.looks post.old) × (P.last_look post.new ≡ P.last_look post.old) }
    ensures reports_that { let before : HandleSeen = record { made = P.made post.old; errors = P.errors post.old; last = P.last_error post.old } in let after : HandleSeen = record { made = P.made post.new; errors = P.errors post.new; last = P.last_error post.new } in ReportsThat before after result }
    ensures share { P.share post.new ≡ P.share post.old }
{
    pump_read(alloc, post, input, link).0
}

/// Writes a piece whole, and says whether all of it was taken. It is not exactly where a write of this call
/// failed: that write is the only one that failed, and what was taken before it is a prefix of the piece.
fn write_link<O: LinkOut>(output: &mut O, piece: &[u8]) -> bool
    ensures whole { result ≡ true → Appends (O.taken output.old) (O.taken output.new) piece.now }
    ensures part { result ≡ false → AppendsPrefix (O.taken output.old) (O.taken output.new) piece.now }
    ensures steady { result ≡ true → O.faults output.new ≡ O.faults output.old }
    ensures once { result ≡ false → O.faults output.new ≡ one_more (O.faults output.old) }
    ensures closed { O.closed output.new ≡ O.closed output.old }
{
    let mut at = 0;
    while at < piece.len() {
        match output.write(&piece[at..]) {
            WriteAnswer::Took(count) => at += count,
            WriteAnswer::Failed => return false,
        }
    }
    true
}

/// Writes what was drained, and posts LinkLost where a write failed.
fn write_out<P: Post, O: LinkOut>(post: &mut P, output: &mut O, link: u32, piece: &[u8]) -> Pumped
    ensures posted { let before : HandleSeen = record { made = P.made post.old; errors = P.errors post.old; last = P.last_error post.old } in let after : HandleSeen = record { made = P.made post.new; errors = P.errors post.new; last = P.last_error post.new } in WritesOut link piece.now (record { taken = O.taken output.old; faults = O.faults output.old }) (record { taken = O.taken output.new; faults = O.faults output.new }) before after result }
    ensures looks { (P.looks post.new ≡ P.looks post.old) × (P.last_look post.new ≡ P.last_look post.old) }
    ensures closed { O.closed output.new ≡ O.closed output.old }
    ensures reports_that { let before : HandleSeen = record { made = P.made post.old; errors = P.errors post.old; last = P.last_error post.old } in let after : HandleSeen = record { made = P.made post.new; errors = P.errors post.new; last = P.last_error post.new } in ReportsThat before after result }
    ensures share { P.share post.new ≡ P.share post.old }
{
    if write_link(output, piece) {
        return Pumped::Going;
    }
    post_to(post, Event::LinkLost { link }, Pumped::Lost)
}

/// The bytes that a Drain gave, or the answer where it gave none.
fn drained(came: Result<Reply, PostError>) -> Result<Octets, Pumped>
    ensures { result ≡ drained_of came }
{
    match came {
        Ok(Reply::Octets { octets }) => Ok(octets),
        other => Err(answer_of(Pumped::Going, &other)),
    }
}

/// Posts a Drain, and writes what it gave.
fn drain_out<P: Post, O: LinkOut>(post: &mut P, output: &mut O, link: u32) -> Pumped
    ensures posted { let before : HandleSeen = record { made = P.made post.old; errors = P.errors post.old; last = P.last_error post.old } in let after : HandleSeen = record { made = P.made post.new; errors = P.errors post.new; last = P.last_error post.new } in PumpsOut link true (record { taken = O.taken output.old; faults = O.faults output.old }) (record { taken = O.taken output.new; faults = O.faults output.new }) before after result }
    ensures looks { (P.looks post.new ≡ P.looks post.old) × (P.last_look post.new ≡ P.last_look post.old) }
    ensures closed { O.closed output.new ≡ O.closed output.old }
    ensures reports_that { let before : HandleSeen = record { made = P.made post.old; errors = P.errors post.old; last = P.last_error post.old } in let after : HandleSeen = record { made = P.made post.new; errors = P.errors post.new; last = P.last_error post.new } in ReportsThat before after result }
    ensures share { P.share post.new ≡ P.share post.old }
{
    let room = DRAIN_ROOM;
    let came = post.post(Event::Drain { link, room });
    match drained(came) {
        Ok(octets) => write_out(post, output, link, octets.as_slice()),
        Err(answer) => answer,
    }
}

/// Posts a Drain exactly where the channel has something to send on the link, and writes what it gave; that counts as
/// a try that found something.
pub(crate) fn send_link<P: Post + Glance, O: LinkOut>(
    post: &mut P,
    poll_delay: &mut PollDelay,
    output: &mut O,
    link: u32,
) -> Pumped
    ensures posted { let before : HandleSeen = record { made = P.made post.old; errors = P.errors post.old; last = P.last_error post.old } in let after : HandleSeen = record { made = P.made post.new; errors = P.errors post.new; last = P.last_error post.new } in (can : Bool) × (P.last_look post.new ≡ Some (look.CanDrain link can)) × PumpsOut link can (record { taken = O.taken output.old; faults = O.faults output.old }) (record { taken = O.taken output.new; faults = O.faults output.new }) before after result }
    ensures looks { P.looks post.new ≡ one_more (P.looks post.old) }
    ensures closed { O.closed output.new ≡ O.closed output.old }
    ensures reports_that { let before : HandleSeen = record { made = P.made post.old; errors = P.errors post.old; last = P.last_error post.old } in let after : HandleSeen = record { made = P.made post.new; errors = P.errors post.new; last = P.last_error post.new } in ReportsThat before after result }
    ensures share { P.share post.new ≡ P.share post.old }
{
    if !post.can_drain(link) {
        return Pumped::Going;
    }
    poll_delay.hit();
    drain_out(post, output, link)
}

/// Posts a Drain with room for 65,536 bytes exactly where the channel has something to send on the link, and
/// writes all that it gave. LinkLost is posted where a write failed.
pub fn pump_out<P: Post + Glance, O: LinkOut>(post: &mut P, output: &mut O, link: u32) -> Pumped
    ensures posted { let before : HandleSeen = record { made = P.made post.old; errors = P.errors post.old; last = P.last_error post.old } in let after : HandleSeen = record { made = P.made post.new; errors = P.errors post.new; last = P.last_error post.new } in (can : Bool) × (P.last_look post.new ≡ Some (look.CanDrain link can)) × PumpsOut link can (record { taken = O.taken output.old; faults = O.faults output.old }) (record { taken = O.taken output.new; faults = O.faults output.new }) before after result }
    ensures looks { P.looks post.new ≡ one_more (P.looks post.old) }
    ensures closed { O.closed output.new ≡ O.closed output.old }
    ensures reports_that { let before : HandleSeen = record { made = P.made post.old; errors = P.errors post.old; last = P.last_error post.old } in let after : HandleSeen = record { made = P.made post.new; errors = P.errors post.new; last = P.last_error post.new } in ReportsThat before after result }
    ensures share { P.share post.new ≡ P.share post.old }
{
    send_link(post, &mut PollDelay::new(), output, link)
}
