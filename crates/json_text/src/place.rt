// The place in a text that a reader has come to, and what is open round it.
use crate::json::Json;
use crate::members::Members;
use crate::number::Part;
use crate::string::Quoted;
use grpc_base::Text;

/// A list or an object that is open, and awaits a value.
#[derive(Drop)]
pub enum Parent {
    /// A list with the values so far.
    List(Vec<Json>),
    /// An object with the members so far, and the name of the next.
    Member(Members, Text),
}

/// The place that one has come to.
#[derive(Drop)]
pub enum Place {
    /// Before the object at the top.
    Top,
    /// After the bracket that opens a list.
    FirstValue,
    /// Before a value.
    Value,
    /// After the bracket that opens an object.
    FirstName,
    /// Before a name, after these members.
    Name(Members),
    /// Before a colon.
    Colon,
    /// After a value of a list.
    AfterItem(Vec<Json>),
    /// After a member of an object.
    AfterMember(Members),
    /// Inside the word for a value: the next letter, and those after it.
    InWord {
        letter: u8,
        letters: &'static [u8],
        value: Json,
    },
    /// Inside a number, which began at `start`.
    InNumber {
        part: Part,
        start: u64,
        text: Text,
    },
    /// Inside a string that is a value.
    InString(Quoted),
    /// Inside a name after these members, which began at `start`.
    InName {
        members: Members,
        start: u64,
        quoted: Quoted,
    },
    /// After the object at the top.
    End(Json),
}

/// The place, and what is open round it, the innermost last.
#[derive(Drop)]
pub struct Reader {
    pub place: Place,
    pub parents: Vec<Parent>,
}
