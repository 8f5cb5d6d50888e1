// The server: one script, and many links.
ghost use Rattle.std.specs.Prelude.{◌≡◌, ◌<◌, ℕ, Err, IfOk, OnOk, IfSome, None, Some, length, position};
ghost use Rattle.grpc_base.specs.Scripts.{IsServerScript};
ghost use Rattle.loop_server.specs.Drains.{CoreDrains};
ghost use Rattle.loop_server.specs.Script.{all_lines};
ghost use Rattle.loop_server.specs.Server.{new_core};
ghost use Rattle.loop_server.specs.Steps.{CoreArrives, is_link, place_of_link, with_link};

use crate::answers::Answers;
use crate::fault::ServerFault;
use crate::session::Session;
use grpc_base::{NoMemory, Octets, ServerScript};
use std::alloc::Global;
use std::marker::Model;

/// A server that answers by a script. It has no clock and no thread: bytes come in, and bytes go out.
#[derive(Debug, Drop)]
pub struct ServerCore {
    alloc: Global,
    answers: Answers,
    /// How many requests were answered.
    answered: u64,
    sessions: Vec<Session>,
    /// How many pieces were refused.
    breaks: u64,
    /// The code with which the last of them was.
    last_code: u32,
}

impl Model for ServerCore {
    ghost use Rattle.loop_server.specs.Server.{Core};

    ghost Value = { Core };

    ghost view = { λ c. record { book = c.answers; answered = c.answered; sessions = c.sessions.items; breaks = c.breaks; last_code = c.last_code } };
}

impl ServerCore {
    /// A server without links.
    pub fn new(alloc: Global, script: ServerScript) -> Result<ServerCore, NoMemory>
        requires { IsServerScript script }
        ensures { IfOk result (λ c. c ≡ new_core (all_lines script)) }
    {
        Ok(ServerCore {
            alloc,
            answers: Answers::new(alloc, script)?,
            answered: 0,
            sessions: Vec::new(alloc),
            breaks: 0,
            last_code: 0,
        })
    }

    /// Takes a piece of a link's bytes; a link that is not known is new. Broken comes exactly where the link's bytes broke
    /// the protocol, in this piece or before; its requests then get no answer any more.
    pub fn arrived(&mut self, link: u32, piece: &[u8]) -> Result<(), ServerFault>
        ensures ok { OnOk result (CoreArrives self.old link piece.now self.new None) }
        ensures broken { (code : ℕ) → result ≡ Err (ServerFault.Broken code) → CoreArrives self.old link piece.now self.new (Some code) }
    {
        match self.take(link, piece)? {
            Some(code) => Err(ServerFault::Broken { code }),
            None => Ok(()),
        }
    }

    /// Takes a piece; answers the code with which the link is broken then.
    fn take(&mut self, link: u32, piece: &[u8]) -> Result<Option<u32>, NoMemory>
        ensures { IfOk result (λ broken. CoreArrives self.old link piece.now self.new broken) }
    {
        let place = self.session(link)?;
        let alloc = self.alloc;
        let session = &mut self.sessions[place];
        session.arrived(alloc, &mut self.answers, piece)?;
        let broken = session.broken();
        if let Some(code) = broken {
            self.breaks = self.breaks.saturating_add(1);
            self.last_code = code;
        }
        Ok(broken)
    }

    /// Gives all that may be sent on a link now; a link that is not known is new. First come the link's own frames: its
    /// SETTINGS, the acknowledgements of SETTINGS and PING, the WINDOW_UPDATEs for DATA, and RST_STREAM for stream errors.
    /// Then comes each time the next part of the first answer, in the order in which the requests ended, of which one may be
    /// sent. That is messages as the windows allow, and what stands after a hold once so many requests were answered. A broken
    /// link gives nothing.
    pub fn drain(&mut self, link: u32) -> Result<Octets, NoMemory>
        ensures { IfOk result (λ octets. CoreDrains self.old link self.new octets) }
    {
        let place = self.session(link)?;
        let alloc = self.alloc;
        let session = &mut self.sessions[place];
        let out = session.drain(alloc, self.answers.lines(), &mut self.answered)?;
        Octets::of_buffer(out)
    }

    /// The place of a link, which is made where it is not known.
    fn session(&mut self, link: u32) -> Result<usize, NoMemory>
        ensures place { IfOk result (λ place. place ≡ place_of_link self.old.sessions link) }
        ensures within { IfOk result (λ place. place < length self.new.sessions) }
        ensures state { OnOk result (self.new ≡ record self.old { sessions = with_link self.old.sessions link }) }
    {
        if let Some(place) = place_of(&self.sessions, link) {
            return Ok(place);
        }
        let place = self.sessions.len();
        let session = Session::new(self.alloc, link)?;
        self.sessions.push(session)?;
        Ok(place)
    }
}

/// The place of a link.
fn place_of(sessions: &[Session], link: u32) -> Option<usize>
    ensures place { result ≡ position (is_link link) sessions.now }
    ensures within { IfSome result (λ place. place < length sessions.now) }
{
    sessions.iter().position(|s| s.is_numbered(link))
}
