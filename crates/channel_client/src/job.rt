// Work of a program with its handle.
ghost use Rattle.channel_client.specs.Jobs.{JobDone};

use crate::work::ClientWork;
use grpc_base::Caller;
use std::sync::Wait;

/// Work with the handle that is its own.
#[derive(Drop)]
pub struct ClientJob<H, J> {
    pub post: H,
    pub work: J,
}

impl<H: Caller, J: ClientWork> ClientJob<H, J> {
    /// Does the work.
    pub(crate) fn run<W: Wait>(&mut self, rt: &W)
        ensures { JobDone H.made H.share J.shows self.old self.new }
    {
        self.work.work(rt, &mut self.post);
    }
}
