// The links of a server that have not ended.
ghost use Rattle.std.specs.Prelude.{◌≡◌, ◌<◌, ◌+◌, length, OnOk, OnErr};

use crate::{LinkDone, Serving, Turned, serve_turn};
use gate_io::{LinkIn, LinkOut};
use grpc_base::NoMemory;
use std::alloc::Global;

/// A link that has not ended.
#[derive(Drop)]
struct OpenLink<I, O> {
    number: u32,
    input: I,
    output: O,
    /// Whether something may have changed at it since its last turn.
    is_due: bool,
}

/// The links that have not ended. They are numbered from 1, as they came.
#[derive(Drop)]
pub struct OpenLinks<I, O> {
    links: Vec<OpenLink<I, O>>,
    last: u32,
}

impl<I: LinkIn, O: LinkOut> OpenLinks<I, O> {
    /// No link has come.
    pub fn new(alloc: Global) -> OpenLinks<I, O> {
        OpenLinks {
            links: Vec::new(alloc),
            last: 0,
        }
    }

    /// Whether each link has ended.
    pub fn is_empty(&self) -> bool {
        self.links.is_empty()
    }

    /// Whether a link is to have its turn.
    pub fn has_due(&self) -> bool {
        self.links.iter().any(|link| link.is_due)
    }

    /// A link came.
    pub fn push(&mut self, input: I, output: O) -> Result<(), NoMemory> {
        self.last = self.last.saturating_add(1);
        self.links.push(OpenLink {
            number: self.last,
            input,
            output,
            is_due: true,
        })?;
        Ok(())
    }

    /// Something may have changed at the link of a number.
    pub fn note(&mut self, number: u32) {
        for link in self.links.iter_mut() {
            if link.number == number {
                link.is_due = true;
            }
        }
    }

    /// Something may have changed at each link.
    pub fn note_all(&mut self) {
        for link in self.links.iter_mut() {
            link.is_due = true;
        }
    }

    /// A turn of each link that is to have one. Says whether the server found memory for all of them.
    pub fn turn<V: Serving>(&mut self, core: &mut V) -> bool {
        let mut found = true;
        let mut place = 0;
        while place < self.links.len() {
            match self.turn_at(core, place) {
                None => place += 1,
                Some(done) => {
                    found = found && done != LinkDone::NoMemory;
                    let _link = self.links.remove(place);
                }
            }
        }
        found
    }

    /// The turn of the link at a place, if it is to have one, and how the link ended in it.
    fn turn_at<V: Serving>(&mut self, core: &mut V, place: usize) -> Option<LinkDone>
        requires { place < length self.old.links.items }
        ensures { length self.new.links.items ≡ length self.old.links.items }
    {
        let link = &mut self.links[place];
        if !link.is_due {
            return None;
        }
        match serve_turn(core, link.number, &mut link.input, &mut link.output) {
            Turned::Over(done) => Some(done),
            Turned::More => None,
            Turned::Quiet => {
                link.is_due = false;
                None
            }
        }
    }
}
