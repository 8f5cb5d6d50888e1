// A string, byte by byte (RFC 8259, section 7).
ghost use Rattle.std.specs.Prelude.{◌≡◌, ◌<◌, ◌++◌, IfOk, OnOk, IfSome};
ghost use Rattle.std.specs.Char.{encode_utf8, InScalarRange};
ghost use Rattle.json_text.specs.Strings.{string_byte, first_byte, lead_byte, tail_byte, escaped_byte, hex_digit, hex_byte, is_high, is_low, settled, with_byte, with_other, with_unit, nothing_read, opened_quote, quoted_next};

use grpc_base::{NoMemory, Text};
use std::alloc::Global;

/// Where one stands in a string.
#[derive(Clone, Copy, Debug, PartialEq, Eq)]
pub enum Spot {
    /// Between two characters.
    Between,
    /// Inside a character of several bytes: the next is from `low` to `high`, and `more` follow it.
    Tail { low: u8, high: u8, more: u8 },
    /// After a backslash.
    Escape,
    /// Before a digit of an escape: how many follow it, and the value of those before it.
    Hex { left: u8, value: u16 },
}

/// What a byte is to the string before it.
#[derive(Clone, Copy, Debug, PartialEq, Eq)]
pub enum StringByte {
    /// It belongs to an escape that goes on.
    Inside(Spot),
    /// It stands for itself.
    Plain(Spot),
    /// It ends the escape of this code unit.
    Escaped(u16),
    /// It is the closing quote.
    Closing,
    /// No string goes on like this.
    Wrong,
}

fn lead_byte(byte: u8) -> StringByte
    ensures { result ≡ lead_byte byte }
{
    let (low, high, more) = match byte {
        0xc2..=0xdf => (0x80, 0xbf, 0),
        0xe0 => (0xa0, 0xbf, 1),
        0xed => (0x80, 0x9f, 1),
        0xe1..=0xef => (0x80, 0xbf, 1),
        0xf0 => (0x90, 0xbf, 2),
        0xf1..=0xf3 => (0x80, 0xbf, 2),
        0xf4 => (0x80, 0x8f, 2),
        _ => return StringByte::Wrong,
    };
    StringByte::Plain(Spot::Tail { low, high, more })
}

fn first_byte(byte: u8) -> StringByte
    ensures { result ≡ first_byte byte }
{
    match byte {
        b'"' => StringByte::Closing,
        b'\\' => StringByte::Inside(Spot::Escape),
        0..=0x1f => StringByte::Wrong,
        0x20..=0x7f => StringByte::Plain(Spot::Between),
        _ => lead_byte(byte),
    }
}

fn tail_byte(low: u8, high: u8, more: u8, byte: u8) -> StringByte
    ensures { result ≡ tail_byte low high more byte }
{
    if byte < low || byte > high {
        return StringByte::Wrong;
    }
    if more == 0 {
        return StringByte::Plain(Spot::Between);
    }
    StringByte::Plain(Spot::Tail {
        low: 0x80,
        high: 0xbf,
        more: more - 1,
    })
}

fn escaped_byte(byte: u8) -> StringByte
    ensures { result ≡ escaped_byte byte }
{
    match byte {
        b'"' | b'\\' | b'/' => StringByte::Escaped(byte as u16),
        b'b' => StringByte::Escaped(8),
        b'f' => StringByte::Escaped(12),
        b'n' => StringByte::Escaped(10),
        b'r' => StringByte::Escaped(13),
        b't' => StringByte::Escaped(9),
        b'u' => StringByte::Inside(Spot::Hex { left: 3, value: 0 }),
        _ => StringByte::Wrong,
    }
}

fn hex_digit(byte: u8) -> Option<u16>
    ensures value { result ≡ hex_digit byte }
    ensures below { IfSome result (λ d. d < 16) }
{
    let digit = (byte as char).to_digit(16)?;
    Some(digit as u16)
}

fn hex_byte(left: u8, value: u16, digit: Option<u16>) -> StringByte
    requires { IfSome digit (λ d. d < 16) }
    ensures { result ≡ hex_byte left value digit }
{
    let Some(digit) = digit else {
        return StringByte::Wrong;
    };
    let value = ((value as u32 * 16 + digit as u32) % 65536) as u16;
    if left == 0 {
        return StringByte::Escaped(value);
    }
    StringByte::Inside(Spot::Hex {
        left: left - 1,
        value,
    })
}

/// What a byte is at this place of a string.
pub fn string_byte(spot: Spot, byte: u8) -> StringByte
    ensures { result ≡ string_byte spot byte }
{
    match spot {
        Spot::Between => first_byte(byte),
        Spot::Tail { low, high, more } => tail_byte(low, high, more, byte),
        Spot::Escape => escaped_byte(byte),
        Spot::Hex { left, value } => hex_byte(left, value, hex_digit(byte)),
    }
}

fn is_high(unit: u16) -> bool
    ensures { result ≡ is_high unit }
{
    matches!(unit, 0xd800..=0xdbff)
}

fn is_low(unit: u16) -> bool
    ensures { result ≡ is_low unit }
{
    matches!(unit, 0xdc00..=0xdfff)
}

/// The character of this code.
fn char_of(code: u32) -> char
    requires { InScalarRange code }
    ensures { result ≡ code }
{
    char::from_u32(code).unwrap_or(char::REPLACEMENT_CHARACTER)
}

/// Appends a character in UTF-8.
fn push_char(text: &mut Text, character: char) -> Result<(), NoMemory>
    ensures { OnOk result (text.new ≡ text.old ++ encode_utf8 character) }
{
    let mut bytes = [0; 4];
    text.append(character.encode_utf8(&mut bytes).as_bytes())
}

/// What was read of a string.
#[derive(Debug, Drop)]
pub struct Read {
    /// The characters.
    pub text: Text,
    /// The first half of a pair that the next escape may complete.
    pub high: Option<u16>,
}

impl Read {
    /// Nothing yet.
    pub fn new(alloc: Global) -> Read
        ensures { result ≡ nothing_read }
    {
        Read {
            text: Text::new(alloc),
            high: None,
        }
    }

    /// The characters, with a half that waits standing alone.
    pub fn settled(self) -> Result<Text, NoMemory>
        ensures { IfOk result (λ text. text ≡ settled self) }
    {
        let Read { text, high } = self;
        let mut text = text;
        if high.is_some() {
            text.append(&[0xef, 0xbf, 0xbd])?;
        }
        Ok(text)
    }

    /// One byte more, as it stands.
    pub fn with_byte(self, byte: u8) -> Result<Read, NoMemory>
        ensures { IfOk result (λ r. r ≡ with_byte self byte) }
    {
        let mut text = self.settled()?;
        text.push(byte)?;
        Ok(Read { text, high: None })
    }

    /// One escaped code unit more.
    pub fn with_unit(self, unit: u16) -> Result<Read, NoMemory>
        ensures { IfOk result (λ r. r ≡ with_unit self unit) }
    {
        let Read { text, high } = self;
        let Some(first) = high else {
            return with_other(text, unit);
        };
        let mut text = text;
        if is_low(unit) {
            let both = 65536 + first as u32 % 1024 * 1024 + unit as u32 % 1024;
            push_char(&mut text, char_of(both))?;
            return Ok(Read { text, high: None });
        }
        text.append(&[0xef, 0xbf, 0xbd])?;
        with_other(text, unit)
    }
}

/// One escaped code unit more, which completes no pair.
fn with_other(text: Text, unit: u16) -> Result<Read, NoMemory>
    ensures { IfOk result (λ r. r ≡ with_other text unit) }
{
    let mut text = text;
    if is_high(unit) {
        return Ok(Read {
            text,
            high: Some(unit),
        });
    }
    if is_low(unit) {
        text.append(&[0xef, 0xbf, 0xbd])?;
    } else {
        push_char(&mut text, char_of(unit as u32))?;
    }
    Ok(Read { text, high: None })
}

/// A string that is being read.
#[derive(Debug, Drop)]
pub struct Quoted {
    pub spot: Spot,
    pub read: Read,
}

/// What one byte makes of it.
#[derive(Debug, Drop)]
pub enum QuotedNext {
    /// The string goes on.
    Continues(Quoted),
    /// It is closed, with these characters.
    Closed(Text),
    /// No string goes on like this.
    Wrong,
}

impl Quoted {
    /// After the opening quote.
    pub fn new(alloc: Global) -> Quoted
        ensures { result ≡ opened_quote }
    {
        Quoted {
            spot: Spot::Between,
            read: Read::new(alloc),
        }
    }

    /// One byte more.
    pub fn next(self, byte: u8) -> Result<QuotedNext, NoMemory>
        ensures { IfOk result (λ next. next ≡ quoted_next self byte) }
    {
        let Quoted { spot, read } = self;
        let (spot, read) = match string_byte(spot, byte) {
            StringByte::Inside(spot) => (spot, read),
            StringByte::Plain(spot) => (spot, read.with_byte(byte)?),
            StringByte::Escaped(unit) => (Spot::Between, read.with_unit(unit)?),
            StringByte::Closing => return Ok(QuotedNext::Closed(read.settled()?)),
            StringByte::Wrong => return Ok(QuotedNext::Wrong),
        };
        Ok(QuotedNext::Continues(Quoted { spot, read }))
    }
}
