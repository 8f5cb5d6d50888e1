// What is at the start of some bytes, and what it does.
ghost use Rattle.std.specs.Prelude.{◌≡◌, ◌≤◌, length, IfOk, IfSome, IfNone};
ghost use Rattle.h2_server.specs.Received.{prefix_of, frame_prefix};
ghost use Rattle.h2_server.specs.Outcomes.{prefix_reported};

use crate::news::RequestNews;
use crate::state::State;
use grpc_base::NoMemory;
use h2_frame::{FrameStep, fault_place, next_frame};
use std::alloc::Global;

/// How many bytes show what is at the start, and its news.
pub(crate) type Prefix = (usize, Option<RequestNews>);

impl State {
    /// What is at the start, and what it does; None where the bytes show nothing yet.
    pub(crate) fn receive(
        &mut self,
        alloc: Global,
        prefaced: bool,
        bytes: &[u8],
    ) -> Result<Option<Prefix>, NoMemory>
        ensures prefix { IfOk result (λ r. prefix_reported r self.new ≡ prefix_of prefaced self.old bytes.now) }
        ensures same { IfOk result (λ r. IfNone r (self.new ≡ self.old)) }
        ensures within { IfOk result (λ r. IfSome r (λ x. x.0 ≤ length bytes.now)) }
    {
        if prefaced {
            self.receive_frame(alloc, bytes)
        } else {
            Ok(self.receive_preface(alloc, bytes))
        }
    }

    /// The frame or the fault at the start; None for less than a frame.
    fn receive_frame(&mut self, alloc: Global, bytes: &[u8]) -> Result<Option<Prefix>, NoMemory>
        ensures prefix { IfOk result (λ r. prefix_reported r self.new ≡ frame_prefix self.old bytes.now) }
        ensures same { IfOk result (λ r. IfNone r (self.new ≡ self.old)) }
        ensures within { IfOk result (λ r. IfSome r (λ x. x.0 ≤ length bytes.now)) }
    {
        match next_frame(bytes) {
            FrameStep::Got { frame, len } => {
                let news = self.apply_frame(alloc, frame)?;
                Ok(Some((len, news)))
            }
            FrameStep::More => Ok(None),
            FrameStep::Bad { code } => {
                let news = self.break_off(alloc, code);
                Ok(Some((fault_place(bytes), news)))
            }
        }
    }
}
