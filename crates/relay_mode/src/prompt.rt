// What comes on a link of a client, read so that what comes for the client is soon seen too.
use gate_io::{Clock, LinkIn, LinkRead, Pause};

/// What comes on a link. Where its user wants short waits, it waits after a read and not within it: a system's reads wait some
/// milliseconds at least, and responses come from the channel in the meantime. A long wait is one of the read, which what the client sends
/// ends at once.
#[derive(Drop)]
pub struct PromptIn<'c, I, C> {
    input: &'c mut I,
    clock: &'c C,
    pause: Pause,
}

impl<'c, I: LinkIn, C: Clock> PromptIn<'c, I, C> {
    /// A link that is read so, with waits by this clock.
    pub fn new(input: &'c mut I, clock: &'c C) -> PromptIn<'c, I, C> {
        PromptIn {
            input,
            clock,
            pause: Pause::Long,
        }
    }
}

impl<I: LinkIn, C: Clock> LinkIn for PromptIn<'_, I, C> {
    ghost left = { λ p. I.left p.input.now };

    ghost faults = { λ p. I.faults p.input.now };

    ghost quiet = { λ p. I.quiet p.input.now };

    fn read(&mut self, buf: &mut [u8]) -> LinkRead {
        if self.pause == Pause::Long {
            self.input.wait_at_most(Pause::Long);
            return self.input.read(buf);
        }
        self.input.wait_at_most(Pause::None);
        let came = self.input.read(buf);
        if came == LinkRead::Quiet {
            self.clock.pause(self.pause);
        }
        came
    }

    fn wait_at_most(&mut self, pause: Pause) {
        self.pause = pause;
    }
}
