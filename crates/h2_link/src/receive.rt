// What is at the start of some bytes, and what it does.
ghost use Rattle.std.specs.Prelude.{◌≡◌, ◌≤◌, ◌+◌, ◌^◌, length, IfOk, IfSome, IfNone};
ghost use Rattle.h2_link.specs.Received.{prefix_of};
ghost use Rattle.h2_link.specs.Outcomes.{prefix_reported};

use crate::news::LinkNews;
use crate::state::State;
use grpc_base::{Items, NoMemory};
use h2_frame::{FrameStep, fault_place, next_frame};
use std::alloc::Global;

impl State {
    /// The frame or the fault at the start, with how many bytes show it and with its news; None for less than a frame.
    pub(crate) fn receive(
        &mut self,
        alloc: Global,
        bytes: &[u8],
    ) -> Result<Option<(usize, Items<LinkNews>)>, NoMemory>
        ensures prefix { IfOk result (λ r. prefix_reported r self.new ≡ prefix_of self.old bytes.now) }
        ensures same { IfOk result (λ r. IfNone r (self.new ≡ self.old)) }
        ensures within { IfOk result (λ r. IfSome r (λ x. x.0 ≤ length bytes.now)) }
    {
        match next_frame(bytes) {
            FrameStep::Got { frame, len } => {
                let news = self.apply_frame(alloc, frame)?;
                Ok(Some((len, news)))
            }
            FrameStep::More => Ok(None),
            FrameStep::Bad { code } => {
                let read = self.read;
                let news = self.break_off(alloc, read, code)?;
                Ok(Some((fault_place(bytes), news)))
            }
        }
    }
}
