// One byte more of a text: the place that one comes to, or the fault.
ghost use Rattle.std.specs.Prelude.{◌≡◌, ◌∷◌, [], IfOk};
ghost use Rattle.json_text.specs.Grammar.{is_blank};
ghost use Rattle.json_text.specs.Reading.{Gives, in_word, in_number, in_name, put, opened, value_byte, top_byte, first_value_byte, next_value_byte, first_name_byte, next_name_byte, colon_byte, item_byte, member_byte, end_byte, after_number, word_byte, digit_byte, string_goes, name_goes, named, step};
ghost use Rattle.json_text.specs.Tree.{item_after};
ghost use Rattle.json_text.specs.Numbers.{number_byte};
ghost use Rattle.json_text.specs.Strings.{quoted_next, opened_quote};
ghost use Rattle.json_text.specs.Views.{state_of, parent_of, tree_of, parents_of, items_of, members_of, stage_of};

use crate::json::Json;
use crate::members::Members;
use crate::number::{NumberByte, Part, number_byte};
use crate::place::{Parent, Place, Reader};
use crate::string::{Quoted, QuotedNext};
use grpc_base::{JsonFault, NoMemory, Text};
use std::alloc::Global;

const MOST_LEVELS: usize = 32;

fn is_blank(byte: u8) -> bool
    ensures { result ≡ is_blank byte }
{
    matches!(byte, b' ' | b'\t' | b'\n' | b'\r')
}

/// A value of a list is whole.
#[tactic(auto, using(crate::proofs::Growth::items_push))]
fn with_item(items: Vec<Json>, value: Json) -> Result<Vec<Json>, NoMemory>
    ensures { IfOk result (λ v. items_of v.items ≡ item_after (items_of items.items) (tree_of value)) }
{
    let mut items = items;
    items.push(value)?;
    Ok(items)
}

/// One list or object more is open.
#[tactic(auto, using(crate::proofs::Growth::parents_push))]
fn inside(parents: Vec<Parent>, parent: Parent) -> Result<Vec<Parent>, NoMemory>
    ensures { IfOk result (λ v. parents_of v.items ≡ parent_of parent ∷ parents_of parents.items) }
{
    let mut parents = parents;
    parents.push(parent)?;
    Ok(parents)
}

/// A value is whole.
#[tactic(auto, using(crate::proofs::Growth::parents_push))]
fn put(parents: Vec<Parent>, value: Json) -> Result<Reader, NoMemory>
    ensures { IfOk result (λ r. state_of r ≡ put (tree_of value) (parents_of parents.items)) }
{
    let mut parents = parents;
    let place = match parents.pop() {
        None => Place::End(value),
        Some(Parent::List(items)) => Place::AfterItem(with_item(items, value)?),
        Some(Parent::Member(members, name)) => Place::AfterMember(members.with(name, value)?),
    };
    Ok(Reader { place, parents })
}

/// A bracket opens one level more.
#[tactic(auto, using(crate::proofs::Growth::parents_count))]
fn opened(place: Place, at: u64, parents: Vec<Parent>) -> Result<Reader, JsonFault>
    ensures { Gives state_of result (opened (stage_of place) at (parents_of parents.items)) }
{
    if parents.len() >= MOST_LEVELS {
        return Err(JsonFault::TooDeep { at });
    }
    Ok(Reader { place, parents })
}

/// The first byte of a value.
#[tactic(auto, unfolding(crate::specs::Reading::value_byte))]
fn value_byte(alloc: Global, at: u64, parents: Vec<Parent>, byte: u8) -> Result<Reader, JsonFault>
    ensures { Gives state_of result (value_byte at (parents_of parents.items) byte) }
{
    let place = match byte {
        b'"' => Place::InString(Quoted::new(alloc)),
        b'-' => in_number(alloc, Part::Minus, at, byte)?,
        b'0' => in_number(alloc, Part::Zero, at, byte)?,
        b'1'..=b'9' => in_number(alloc, Part::Whole, at, byte)?,
        b'[' => return opened(Place::FirstValue, at, parents),
        b'{' => return opened(Place::FirstName, at, parents),
        b't' => in_word(b'r', b"ue", Json::Bool(true)),
        b'f' => in_word(b'a', b"lse", Json::Bool(false)),
        b'n' => in_word(b'u', b"ll", Json::Null),
        _ => return Err(JsonFault::Syntax { at }),
    };
    Ok(Reader { place, parents })
}

fn in_word(letter: u8, letters: &'static [u8], value: Json) -> Place
    ensures { stage_of result ≡ in_word letter letters.now (tree_of value) }
{
    Place::InWord {
        letter,
        letters,
        value,
    }
}

/// After the first byte of a number.
fn in_number(alloc: Global, part: Part, start: u64, byte: u8) -> Result<Place, NoMemory>
    ensures { IfOk result (λ place. stage_of place ≡ in_number part start (byte ∷ [])) }
{
    let mut text = Text::new(alloc);
    text.push(byte)?;
    Ok(Place::InNumber { part, start, text })
}

/// A byte before the object at the top.
#[tactic(auto, unfolding(crate::specs::Reading::top_byte))]
fn top_byte(at: u64, parents: Vec<Parent>, byte: u8) -> Result<Reader, JsonFault>
    ensures { Gives state_of result (top_byte at (parents_of parents.items) byte) }
{
    if is_blank(byte) {
        return Ok(Reader {
            place: Place::Top,
            parents,
        });
    }
    if byte == b'{' {
        return opened(Place::FirstName, at, parents);
    }
    Err(JsonFault::Syntax { at })
}

/// A byte after the bracket that opens a list.
#[tactic(auto, unfolding(crate::specs::Reading::first_value_byte))]
fn first_value_byte(
    alloc: Global,
    at: u64,
    parents: Vec<Parent>,
    byte: u8,
) -> Result<Reader, JsonFault>
    ensures { Gives state_of result (first_value_byte at (parents_of parents.items) byte) }
{
    if is_blank(byte) {
        return Ok(Reader {
            place: Place::FirstValue,
            parents,
        });
    }
    let items = Vec::new(alloc);
    if byte == b']' {
        return Ok(put(parents, Json::List(items))?);
    }
    value_byte(alloc, at, inside(parents, Parent::List(items))?, byte)
}

/// A byte before a value.
#[tactic(auto, unfolding(crate::specs::Reading::next_value_byte))]
fn next_value_byte(
    alloc: Global,
    at: u64,
    parents: Vec<Parent>,
    byte: u8,
) -> Result<Reader, JsonFault>
    ensures { Gives state_of result (next_value_byte at (parents_of parents.items) byte) }
{
    if is_blank(byte) {
        return Ok(Reader {
            place: Place::Value,
            parents,
        });
    }
    value_byte(alloc, at, parents, byte)
}

/// After the opening quote of a name.
fn in_name(alloc: Global, start: u64, members: Members) -> Place
    ensures { stage_of result ≡ in_name (members_of members.list.items) start opened_quote }
{
    Place::InName {
        members,
        start,
        quoted: Quoted::new(alloc),
    }
}

/// A byte after the bracket that opens an object.
#[tactic(auto, unfolding(crate::specs::Reading::first_name_byte))]
fn first_name_byte(
    alloc: Global,
    at: u64,
    parents: Vec<Parent>,
    byte: u8,
) -> Result<Reader, JsonFault>
    ensures { Gives state_of result (first_name_byte at (parents_of parents.items) byte) }
{
    let place = match byte {
        b' ' | b'\t' | b'\n' | b'\r' => Place::FirstName,
        b'"' => in_name(alloc, at, Members::new(alloc)),
        b'}' => return Ok(put(parents, Json::Object(Vec::new(alloc)))?),
        _ => return Err(JsonFault::Syntax { at }),
    };
    Ok(Reader { place, parents })
}

/// A byte before a name, after a comma.
#[tactic(auto, unfolding(crate::specs::Reading::next_name_byte))]
fn next_name_byte(
    alloc: Global,
    at: u64,
    members: Members,
    parents: Vec<Parent>,
    byte: u8,
) -> Result<Reader, JsonFault>
    ensures { Gives state_of result (next_name_byte at (members_of members.list.items) (parents_of parents.items) byte) }
{
    let place = match byte {
        b' ' | b'\t' | b'\n' | b'\r' => Place::Name(members),
        b'"' => in_name(alloc, at, members),
        _ => return Err(JsonFault::Syntax { at }),
    };
    Ok(Reader { place, parents })
}

/// A byte before a colon.
#[tactic(auto, unfolding(crate::specs::Reading::colon_byte))]
fn colon_byte(at: u64, parents: Vec<Parent>, byte: u8) -> Result<Reader, JsonFault>
    ensures { Gives state_of result (colon_byte at (parents_of parents.items) byte) }
{
    let place = match byte {
        b' ' | b'\t' | b'\n' | b'\r' => Place::Colon,
        b':' => Place::Value,
        _ => return Err(JsonFault::Syntax { at }),
    };
    Ok(Reader { place, parents })
}

/// A byte after a value of a list.
#[tactic(auto, unfolding(crate::specs::Reading::item_byte))]
fn item_byte(at: u64, items: Vec<Json>, parents: Vec<Parent>, byte: u8) -> Result<Reader, JsonFault>
    ensures { Gives state_of result (item_byte at (items_of items.items) (parents_of parents.items) byte) }
{
    if is_blank(byte) {
        return Ok(Reader {
            place: Place::AfterItem(items),
            parents,
        });
    }
    match byte {
        b',' => Ok(Reader {
            place: Place::Value,
            parents: inside(parents, Parent::List(items))?,
        }),
        b']' => Ok(put(parents, Json::List(items))?),
        _ => Err(JsonFault::Syntax { at }),
    }
}

/// A byte after a member of an object.
#[tactic(auto, unfolding(crate::specs::Reading::member_byte))]
fn member_byte(
    at: u64,
    members: Members,
    parents: Vec<Parent>,
    byte: u8,
) -> Result<Reader, JsonFault>
    ensures { Gives state_of result (member_byte at (members_of members.list.items) (parents_of parents.items) byte) }
{
    if is_blank(byte) {
        return Ok(Reader {
            place: Place::AfterMember(members),
            parents,
        });
    }
    match byte {
        b',' => Ok(Reader {
            place: Place::Name(members),
            parents,
        }),
        b'}' => Ok(put(parents, Json::Object(members.list))?),
        _ => Err(JsonFault::Syntax { at }),
    }
}

/// A byte after the object at the top.
#[tactic(auto, unfolding(crate::specs::Reading::end_byte))]
fn end_byte(at: u64, value: Json, parents: Vec<Parent>, byte: u8) -> Result<Reader, JsonFault>
    ensures { Gives state_of result (end_byte at (tree_of value) (parents_of parents.items) byte) }
{
    if is_blank(byte) {
        return Ok(Reader {
            place: Place::End(value),
            parents,
        });
    }
    Err(JsonFault::Syntax { at })
}

/// The byte after a whole number.
#[tactic(auto, using(crate::proofs::Growth::parents_push), unfolding(crate::specs::Reading::after_number))]
fn after_number(at: u64, value: Json, parents: Vec<Parent>, byte: u8) -> Result<Reader, JsonFault>
    ensures { Gives state_of result (after_number at (tree_of value) (parents_of parents.items) byte) }
{
    let mut parents = parents;
    match parents.pop() {
        None => end_byte(at, value, parents, byte),
        Some(Parent::List(items)) => item_byte(at, with_item(items, value)?, parents, byte),
        Some(Parent::Member(members, name)) => {
            member_byte(at, members.with(name, value)?, parents, byte)
        }
    }
}

/// A byte of a word.
#[tactic(auto, unfolding(crate::specs::Reading::word_byte))]
fn word_byte(
    at: u64,
    letter: u8,
    letters: &'static [u8],
    value: Json,
    parents: Vec<Parent>,
    byte: u8,
) -> Result<Reader, JsonFault>
    ensures { Gives state_of result (word_byte at letter letters.now (tree_of value) (parents_of parents.items) byte) }
{
    if byte != letter {
        return Err(JsonFault::Syntax { at });
    }
    let [letter, letters @ ..] = letters else {
        return Ok(put(parents, value)?);
    };
    let place = in_word(*letter, letters, value);
    Ok(Reader { place, parents })
}

/// A byte inside a number, or after it.
#[tactic(auto, unfolding(crate::specs::Reading::digit_byte))]
fn digit_byte(
    at: u64,
    part: Part,
    start: u64,
    text: Text,
    parents: Vec<Parent>,
    byte: u8,
) -> Result<Reader, JsonFault>
    ensures { Gives state_of result (digit_byte at (number_byte part byte) start text (parents_of parents.items) byte) }
{
    match number_byte(part, byte) {
        NumberByte::Inside(part) => {
            let mut text = text;
            text.push(byte)?;
            let place = Place::InNumber { part, start, text };
            Ok(Reader { place, parents })
        }
        NumberByte::After => after_number(at, Json::Number(text), parents, byte),
        NumberByte::Exponent => Err(JsonFault::Number { at: start }),
        NumberByte::Wrong => Err(JsonFault::Syntax { at }),
    }
}

/// A byte inside a string that is a value.
#[tactic(auto, unfolding(crate::specs::Reading::string_goes))]
fn string_byte(at: u64, quoted: Quoted, parents: Vec<Parent>, byte: u8) -> Result<Reader, JsonFault>
    ensures { Gives state_of result (string_goes at (quoted_next quoted byte) (parents_of parents.items)) }
{
    match quoted.next(byte)? {
        QuotedNext::Continues(quoted) => Ok(Reader {
            place: Place::InString(quoted),
            parents,
        }),
        QuotedNext::Closed(text) => Ok(put(parents, Json::Str(text))?),
        QuotedNext::Wrong => Err(JsonFault::Syntax { at }),
    }
}

/// A name is whole.
#[tactic(auto, unfolding(crate::specs::Reading::named))]
fn named(
    members: Members,
    start: u64,
    name: Text,
    parents: Vec<Parent>,
) -> Result<Reader, JsonFault>
    ensures { Gives state_of result (named (members_of members.list.items) start name (parents_of parents.items)) }
{
    if members.has(name.as_slice()) {
        return Err(JsonFault::RepeatedKey { at: start });
    }
    Ok(Reader {
        place: Place::Colon,
        parents: inside(parents, Parent::Member(members, name))?,
    })
}

/// A byte inside a name.
#[tactic(auto, unfolding(crate::specs::Reading::name_goes))]
fn name_byte(
    at: u64,
    members: Members,
    start: u64,
    quoted: Quoted,
    parents: Vec<Parent>,
    byte: u8,
) -> Result<Reader, JsonFault>
    ensures { Gives state_of result (name_goes at (members_of members.list.items) start (quoted_next quoted byte) (parents_of parents.items)) }
{
    match quoted.next(byte)? {
        QuotedNext::Continues(quoted) => Ok(Reader {
            place: Place::InName {
                members,
                start,
                quoted,
            },
            parents,
        }),
        QuotedNext::Closed(text) => named(members, start, text, parents),
        QuotedNext::Wrong => Err(JsonFault::Syntax { at }),
    }
}

/// One byte more of a text, which has this place in it.
pub fn step(alloc: Global, reader: Reader, at: u64, byte: u8) -> Result<Reader, JsonFault>
    ensures { Gives state_of result (step at (state_of reader) byte) }
{
    let Reader { place, parents } = reader;
    match place {
        Place::Top => top_byte(at, parents, byte),
        Place::FirstValue => first_value_byte(alloc, at, parents, byte),
        Place::Value => next_value_byte(alloc, at, parents, byte),
        Place::FirstName => first_name_byte(alloc, at, parents, byte),
        Place::Name(members) => next_name_byte(alloc, at, members, parents, byte),
        Place::Colon => colon_byte(at, parents, byte),
        Place::AfterItem(items) => item_byte(at, items, parents, byte),
        Place::AfterMember(members) => member_byte(at, members, parents, byte),
        Place::InWord {
            letter,
            letters,
            value,
        } => word_byte(at, letter, letters, value, parents, byte),
        Place::InNumber { part, start, text } => digit_byte(at, part, start, text, parents, byte),
        Place::InString(quoted) => string_byte(at, quoted, parents, byte),
        Place::InName {
            members,
            start,
            quoted,
        } => name_byte(at, members, start, quoted, parents, byte),
        Place::End(value) => end_byte(at, value, parents, byte),
    }
}
