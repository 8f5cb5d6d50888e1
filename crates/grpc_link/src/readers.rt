// The readers of a link's tags.
ghost use Rattle.std.specs.Prelude.{◌≡◌, ◌<◌, [], IfSome, OnOk, length, option_map};
ghost use Rattle.grpc_link.specs.Links.{found, opened_all, opened_one, placed_reader, with_reader, without};

use crate::reader::ResponseReader;
use grpc_base::NoMemory;
use std::alloc::Global;
use std::marker::Model;

/// The reader of a tag whose response is not over.
#[derive(Debug, Drop)]
pub(crate) struct TagReader {
    pub tag: u64,
    pub reader: ResponseReader,
}

/// The readers of the tags whose responses are not over.
#[derive(Debug, Drop)]
pub(crate) struct Readers {
    readers: Vec<TagReader>,
}

impl Model for Readers {
    ghost use Rattle.std.specs.Prelude.{List};
    ghost use Rattle.grpc_link.specs.declared.readers.TagReader.{TagReader};

    ghost Value = { List TagReader };

    ghost view = { λ r. r.readers.items };
}

impl Readers {
    pub(crate) fn new(alloc: Global) -> Readers
        ensures { result ≡ [] }
    {
        Readers {
            readers: Vec::new(alloc),
        }
    }

    /// A tag of whose response nothing came.
    pub(crate) fn place(&mut self, alloc: Global, tag: u64, limit: u32) -> Result<(), NoMemory>
        ensures { OnOk result (self.new ≡ placed_reader tag limit self.old) }
    {
        self.keep(tag, ResponseReader::new(alloc, limit))
    }

    /// Puts the reader of a tag after the others.
    pub(crate) fn keep(&mut self, tag: u64, reader: ResponseReader) -> Result<(), NoMemory>
        ensures { OnOk result (self.new ≡ with_reader tag reader self.old) }
    {
        self.readers.push(TagReader { tag, reader })?;
        Ok(())
    }

    fn find(&self, tag: u64) -> Option<usize>
        ensures found { result ≡ option_map (λ x. x.0) (found tag self.now) }
        ensures within { IfSome result (λ place. place < length self.now) }
    {
        for (place, reader) in self.readers.iter().enumerate() {
            if reader.tag == tag {
                return Some(place);
            }
        }
        None
    }

    /// Takes the reader of a tag out.
    #[tactic(auto, using(crate::proofs::LinkLaws::taken))]
    pub(crate) fn take(&mut self, tag: u64) -> Option<ResponseReader>
        ensures reader { result ≡ option_map (λ x. x.1) (found tag self.old) }
        ensures others { self.new ≡ without tag self.old }
    {
        let place = self.find(tag)?;
        let TagReader { tag: _, reader } = self.readers.remove(place);
        Some(reader)
    }

    pub(crate) fn clear(&mut self)
        ensures { self.new ≡ [] }
    {
        self.readers.clear();
    }

    /// The HEADERS of a tag were sent.
    #[tactic(auto, using(crate::proofs::LinkLaws::opened_none, crate::proofs::LinkLaws::opened_some))]
    pub(crate) fn open(&mut self, tag: u64) -> Result<(), NoMemory>
        ensures { OnOk result (self.new ≡ opened_one tag self.old) }
    {
        let Some(mut reader) = self.take(tag) else {
            return Ok(());
        };
        reader.open();
        self.keep(tag, reader)
    }

    /// The HEADERS of these tags were sent.
    pub(crate) fn open_all(&mut self, opened: &[(u64, u32)]) -> Result<(), NoMemory>
        ensures { OnOk result (self.new ≡ opened_all opened.now self.old) }
    {
        for (tag, _) in opened {
            self.open(*tag)?;
        }
        Ok(())
    }
}
