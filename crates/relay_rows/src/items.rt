// The items of a response, by their words: `head`, `message TEXT`, `end CODE`.
ghost use Rattle.std.specs.Prelude.{ℕ};
ghost use Rattle.grpc_base.specs.Posts.{MayReply};
ghost use Rattle.grpc_base.specs.declared.event.Event.TheVariants as event;

use grpc_base::{Code, EndCause, Metadata, Octets, Reply, Text};
use std::alloc::Global;
use table_rows::{Wrong, bytes_of, number};

/// The most bytes of a message.
const MOST: usize = 4_194_304;

/// What a response has.
#[derive(Debug, Drop)]
pub enum Item {
    Head,
    Message(Octets),
    End(Code),
}

impl Item {
    /// The item that these words say.
    pub fn of(alloc: Global, words: &str) -> Result<Item, Wrong> {
        let (word, text) = words.split_once(' ').unwrap_or((words, ""));
        match word {
            "head" => Ok(Item::Head),
            "message" => {
                let bytes = bytes_of(alloc, text)?;
                Ok(Item::Message(Octets::of_vec(bytes)?))
            }
            "end" => Ok(Item::End(Code::new(number(text)?).ok_or(Wrong::Form)?)),
            _ => Err(Wrong::Form),
        }
    }

    /// The reply that gives it. One that is too long for a message never comes.
    pub fn reply(self, alloc: Global) -> Reply
        ensures { (call : ℕ) → MayReply (event.Take call) result }
    {
        match self {
            Item::Head => Reply::Head {
                meta: Metadata::new(alloc),
            },
            Item::Message(octets) => {
                if octets.len() > MOST {
                    return Reply::NotYet;
                }
                Reply::Message { octets }
            }
            Item::End(code) => Reply::End {
                code,
                text: Text::new(alloc),
                meta: Metadata::new(alloc),
                cause: EndCause::Row,
            },
        }
    }
}
