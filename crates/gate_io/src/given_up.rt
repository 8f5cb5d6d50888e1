// Links that a channel has given up: what a look at the channel shows to whoever keeps its links open.
use grpc_base::NoMemory;
use std::alloc::Global;
use std::sync::Arc;
use std::sync::atomic::{AtomicU64, Ordering};

/// No link has this number: links count from 1, in 32 bits.
const NO_LINK: u64 = 0;

/// A note of the last link of which a look at a channel found that it is given up: it broke, its dial timed out, or it retired. The handle
/// that looks writes it, and who keeps the handle's links open reads it, in the same thread. No clause rests on it.
#[derive(Drop)]
pub struct GivenUp {
    link: Arc<AtomicU64>,
}

impl GivenUp {
    /// A note of no link.
    pub fn new(alloc: Global) -> Result<GivenUp, NoMemory> {
        Ok(GivenUp {
            link: Arc::new(alloc, AtomicU64::new(NO_LINK))?,
        })
    }

    /// The same note, for whoever reads it.
    pub fn share(&self) -> Result<GivenUp, NoMemory> {
        Ok(GivenUp {
            link: self.link.clone()?,
        })
    }

    /// Notes that this link is given up.
    pub fn note(&self, link: u32) {
        self.link.store(u64::from(link), Ordering::SeqCst);
    }

    /// Whether this link was noted last.
    pub fn has(&self, link: u32) -> bool {
        self.link.load(Ordering::SeqCst) == u64::from(link)
    }
}
