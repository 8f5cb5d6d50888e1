// Rows of tables: each is a session of one link as a line of words, its name and then what is done, with what comes of it
// after. Done again, a session is written down as the same line.
ghost use Rattle.std.specs.Prelude.{◌<◌, ◌≤◌, length, IfOk};

use crate::reported::{hex_word, report_attempts, report_streams};
use grpc_base::{NoMemory, Octets};
use grpc_link::GrpcLink;
use h2_link::{DrainFault, Drained, Link, LinkFault, PlaceFault};
use link_fixture::Fixture;
use std::alloc::Global;
use std::test::Fail;

/// The server's SETTINGS without a setting.
const SETTINGS: &[u8] = b"\x00\x00\x00\x04\x00\x00\x00\x00\x00";

/// More room than any row needs.
const ROOM: u32 = 1_048_576;

/// How many tags have a request.
const TAGS: u32 = 8;

/// A link of either kind.
#[derive(Drop)]
enum Tried {
    Streams(Link),
    Attempts(GrpcLink),
}

impl Tried {
    fn place(&mut self, tag: u64, limit: u32) -> Result<(), PlaceFault> {
        match self {
            Tried::Streams(link) => link.place(tag),
            Tried::Attempts(link) => link.place(tag, limit),
        }
    }

    fn reset(&mut self, tag: u64, code: u32) -> Result<(), NoMemory> {
        match self {
            Tried::Streams(link) => link.reset(tag, code),
            Tried::Attempts(link) => link.reset(tag, code),
        }
    }

    fn ping(&mut self, word: u64) -> Result<(), NoMemory> {
        match self {
            Tried::Streams(link) => link.ping(word),
            Tried::Attempts(link) => link.ping(word),
        }
    }

    fn seal(&mut self) {
        match self {
            Tried::Streams(link) => link.seal(),
            Tried::Attempts(link) => link.seal(),
        }
    }

    fn kept(&self) -> u64 {
        match self {
            Tried::Streams(link) => link.kept(),
            Tried::Attempts(link) => link.kept(),
        }
    }

    fn drain(&mut self, fixture: &mut Fixture) -> Result<Drained, DrainFault> {
        match self {
            Tried::Streams(link) => fixture.drain(link, ROOM),
            Tried::Attempts(link) => fixture.drain_attempts(link, ROOM),
        }
    }

    /// Hands in a piece and appends what is reported; answers how many bytes were taken.
    fn receive(
        &mut self,
        alloc: Global,
        piece: &[u8],
        reported: &mut String,
    ) -> Result<usize, LinkFault>
        requires { 0 < length piece.now }
        ensures { IfOk result (λ taken. (1 ≤ taken) × (taken ≤ length piece.now)) }
    {
        match self {
            Tried::Streams(link) => {
                let arrival = link.arrived(piece)?;
                report_streams(alloc, reported, arrival.news.as_slice())?;
                Ok(arrival.taken)
            }
            Tried::Attempts(link) => {
                let arrival = link.arrived(piece)?;
                report_attempts(alloc, reported, arrival.news.as_slice())?;
                Ok(arrival.taken)
            }
        }
    }
}

/// How bytes are cut before they are passed in.
#[derive(Clone, Copy)]
pub enum Cut {
    /// In two, after so many bytes.
    At(usize),
    /// Into pieces of so many bytes.
    Every(usize),
}

impl Cut {
    /// Where the piece ends that begins at a place.
    fn end(self, start: usize, len: usize) -> usize
        requires { start < len }
        ensures some { start < result }
        ensures within { result ≤ len }
    {
        match self {
            Cut::At(place) if start < place => place.min(len),
            Cut::At(_) => len,
            Cut::Every(size) => start.saturating_add(size.max(1)).min(len),
        }
    }
}

/// A link that is tried, what it is lent, and the words so far.
#[derive(Drop)]
struct LinkRun {
    alloc: Global,
    link: Tried,
    fixture: Fixture,
    cut: Cut,
    reported: String,
    /// The most bytes of input that the link kept after any piece.
    most: u64,
}

impl LinkRun {
    fn new(alloc: Global, link: Tried, cut: Cut) -> Result<LinkRun, Fail> {
        let mut fixture = Fixture::new(alloc);
        for _ in 0..TAGS {
            fixture.push(Octets::new(), false)?;
        }
        Ok(LinkRun {
            alloc,
            link,
            fixture,
            cut,
            reported: String::new(alloc),
            most: 0,
        })
    }

    /// The words that come of a session. Those of what is done have a `>`.
    fn play(&mut self, row: &str) -> Result<(), Fail> {
        for word in row.split(' ') {
            match word.split_once('>') {
                Some((verb, rest)) => {
                    self.report(format!(in self.alloc; " {word}")?)?;
                    self.act(verb, rest)?;
                }
                None if self.reported.is_empty() => self.reported.push_str(word)?,
                None => {}
            }
        }
        Ok(())
    }

    fn act(&mut self, verb: &str, rest: &str) -> Result<(), Fail> {
        match verb {
            "in" => self.take_in(rest),
            "out" => self.drain(),
            "up" => self.open(rest.parse::<u64>()?),
            "place" => self.place(rest),
            "lend" => self.lend(rest, false),
            "last" => self.lend(rest, true),
            _ => self.act_more(verb, rest),
        }
    }

    fn act_more(&mut self, verb: &str, rest: &str) -> Result<(), Fail> {
        match verb {
            "reset" => self.reset(rest),
            "ping" => Ok(self.link.ping(rest.parse::<u64>()?)?),
            "seal" => {
                self.link.seal();
                Ok(())
            }
            "kept" => {
                let kept = self.link.kept();
                self.report(format!(in self.alloc; " {kept}")?)
            }
            "within" if self.most <= rest.parse::<u64>()? => Ok(()),
            "within" => {
                let most = self.most;
                self.report(format!(in self.alloc; " {most}")?)
            }
            _ => Err("a word that nothing does".into()),
        }
    }

    fn report(&mut self, words: String) -> Result<(), Fail> {
        self.reported.push_str(words.as_str())?;
        Ok(())
    }

    /// Bytes of the peer, up to those that break the link.
    fn take_in(&mut self, bytes: &str) -> Result<(), Fail> {
        let bytes = hex::decode(self.alloc, bytes)?;
        let mut start = 0;
        // Each call takes a byte at least.
        for _ in 0..bytes.len() {
            if start >= bytes.len() {
                return Ok(());
            }
            let end = self.cut.end(start, bytes.len());
            let piece = &bytes.as_slice()[start..end];
            match self.link.receive(self.alloc, piece, &mut self.reported) {
                Ok(taken) => {
                    start += taken;
                    self.most = self.most.max(self.link.kept());
                }
                Err(LinkFault::Gone) if start == 0 => return Ok(self.reported.push_str(" gone")?),
                Err(LinkFault::Gone) => return Ok(()),
                Err(LinkFault::NoMemory) => return Err("out of memory".into()),
            }
        }
        Ok(())
    }

    fn drain(&mut self) -> Result<(), Fail> {
        match self.link.drain(&mut self.fixture) {
            Ok(drained) => {
                let bytes = hex_word(self.alloc, drained.octets.as_slice())?;
                self.report(format!(in self.alloc; " {bytes}")?)
            }
            Err(DrainFault::Gone) => Ok(self.reported.push_str(" gone")?),
            Err(_) => Err("out of memory, or of room".into()),
        }
    }

    /// Streams for the tags from 1 on, and the peer's SETTINGS; what is sent is not shown.
    fn open(&mut self, streams: u64) -> Result<(), Fail> {
        for tag in 0..streams {
            self.link.place(tag + 1, 4_194_304)?;
        }
        let mut reported = String::new(self.alloc);
        let _taken = self.link.receive(self.alloc, SETTINGS, &mut reported)?;
        let _drained = self.link.drain(&mut self.fixture)?;
        Ok(())
    }

    /// A tag, maybe after a colon the longest message of its response.
    fn place(&mut self, words: &str) -> Result<(), Fail> {
        let (tag, limit) = words.split_once(':').unwrap_or((words, "4194304"));
        match self.link.place(tag.parse::<u64>()?, limit.parse::<u32>()?) {
            Ok(()) => Ok(()),
            Err(PlaceFault::Gone) => Ok(self.reported.push_str(" gone")?),
            Err(PlaceFault::NoMemory) => Err("out of memory".into()),
        }
    }

    /// A tag, and after a colon a code.
    fn reset(&mut self, words: &str) -> Result<(), Fail> {
        let (tag, code) = words.split_once(':').ok_or("a code")?;
        Ok(self.link.reset(tag.parse::<u64>()?, code.parse::<u32>()?)?)
    }

    /// A tag, and after a colon the bytes that it has to send.
    fn lend(&mut self, words: &str, finished: bool) -> Result<(), Fail> {
        let (tag, bytes) = words.split_once(':').ok_or("bytes")?;
        let left = Octets::of_vec(hex::decode(self.alloc, bytes)?)?;
        self.fixture.lend(tag.parse::<u64>()?, left, finished);
        Ok(())
    }
}

/// The first row of a table that is not written down as it stands, with what is written down in its place; empty where there
/// is none.
pub fn first_wrong(alloc: Global, attempts: bool, rows: &str, cut: Cut) -> Result<String, Fail> {
    for row in rows.lines() {
        let link = if attempts {
            Tried::Attempts(GrpcLink::new(alloc)?)
        } else {
            Tried::Streams(Link::new(alloc)?)
        };
        let mut link_run = LinkRun::new(alloc, link, cut)?;
        link_run.play(row)?;
        if link_run.reported.as_str() != row {
            return Ok(link_run.reported);
        }
    }
    Ok(String::new(alloc))
}
