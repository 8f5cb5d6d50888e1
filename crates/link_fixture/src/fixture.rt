// The requests of a link's tags, all of them with one short header list.
ghost use Rattle.std.specs.Prelude.{◌≡◌, [], ◌∷◌, ◌++◌, IfOk, OnOk};
ghost use Rattle.h2_link.specs.Drains.{Drains};
ghost use Rattle.link_fixture.specs.Fixtures.{lent, lines_of};

use bytes::BytesMut;
use grpc_base::{Field, Fields, NoMemory, Octets};
use grpc_link::GrpcLink;
use h2_link::{DrainFault, Drained, Feed, Link};
use std::alloc::Global;

/// What is left to send of one request.
#[derive(Debug, Drop)]
pub struct Request {
    /// The bytes of DATA that are left.
    pub left: Octets,
    /// Whether none will be added.
    pub finished: bool,
}

/// The requests of the tags 0, 1 and on. A tag that has none is lent the same header list, and has no bytes to send.
#[derive(Debug, Drop)]
pub struct Fixture {
    pub alloc: Global,
    pub requests: Vec<Request>,
}

impl Fixture {
    /// A fixture without requests.
    pub fn new(alloc: Global) -> Fixture
        ensures { result.requests.items ≡ [] }
    {
        Fixture {
            alloc,
            requests: Vec::new(alloc),
        }
    }

    /// The request of the next tag.
    pub fn push(&mut self, left: Octets, finished: bool) -> Result<(), NoMemory>
        ensures { OnOk result (self.new.requests.items ≡ self.old.requests.items ++ record { left = left; finished = finished } ∷ []) }
    {
        self.requests.push(Request { left, finished })?;
        Ok(())
    }

    /// Gives the request of a tag other bytes to send. A tag that has no request changes nothing.
    pub fn lend(&mut self, tag: u64, left: Octets, finished: bool)
        ensures { self.new.requests.items ≡ lent tag (record { left = left; finished = finished }) self.old.requests.items }
    {
        if let Some(request) = self.requests.get_mut(tag as usize) {
            *request = Request { left, finished };
        }
    }

    /// Drains a link, which is lent these requests.
    #[tactic(auto, using(crate::proofs::FixtureLaws::fixture_holds))]
    pub fn drain(&mut self, link: &mut Link, room: u32) -> Result<Drained, DrainFault>
        ensures { IfOk result (λ d. Drains room link.old.wire (lines_of self.old.requests.items) d.octets link.new.wire (lines_of self.new.requests.items)) }
    {
        link.drain(room, self)
    }

    /// Drains a link of attempts, which is lent these requests.
    #[tactic(auto, using(crate::proofs::FixtureLaws::fixture_holds))]
    pub fn drain_attempts(&mut self, link: &mut GrpcLink, room: u32) -> Result<Drained, DrainFault>
        ensures { IfOk result (λ d. Drains room link.old.link.wire (lines_of self.old.requests.items) d.octets link.new.link.wire (lines_of self.new.requests.items)) }
    {
        link.drain(room, self)
    }
}

impl Feed for Fixture {
    ghost use Rattle.std.proofs.Common.{refl, ◌∙◌, length};
    ghost use Rattle.link_fixture.specs.Fixtures.{lines_of};

    ghost lines = { λ d. lines_of d.requests.items };

    ghost same = { λ f g. length g.requests.items ≡ length f.requests.items };

    ghost same_self = { λ f. refl };

    ghost same_on = { λ f g h p q. q ∙ p };

    fn head(&mut self, tag: u64) -> Result<Fields, NoMemory> {
        let mut fields = Fields::new(self.alloc);
        fields.push(Field {
            name: Octets::of_static(b":method"),
            value: Octets::of_static(b"POST"),
        })?;
        Ok(fields)
    }

    fn ready(&self, tag: u64) -> (u64, bool) {
        match self.requests.get(tag as usize) {
            Some(request) => (request.left.len() as u64, request.finished),
            None => (0, false),
        }
    }

    fn take(&mut self, tag: u64, len: u32, out: &mut BytesMut) -> Result<(), NoMemory> {
        let Some(request) = self.requests.get_mut(tag as usize) else {
            return Ok(());
        };
        out.extend_from_slice(&request.left.as_slice()[..len as usize])?;
        request.left.advance(len as usize);
        Ok(())
    }
}
