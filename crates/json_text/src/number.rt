// A number, byte by byte (RFC 8259, section 6).
ghost use Rattle.std.specs.Prelude.{◌≡◌};
ghost use Rattle.json_text.specs.Numbers.{number_byte, after_whole};

/// The part of a number that has been read.
#[derive(Clone, Copy, Debug, PartialEq, Eq)]
pub enum Part {
    /// A minus.
    Minus,
    /// A 0 that begins the number.
    Zero,
    /// Digits that begin with no 0.
    Whole,
    /// A point.
    Point,
    /// Digits after the point.
    Fraction,
    /// An `e`.
    Mark,
    /// The exponent's sign.
    Sign,
}

/// What a byte is to the number before it.
#[derive(Clone, Copy, Debug, PartialEq, Eq)]
pub enum NumberByte {
    /// It belongs to the number.
    Inside(Part),
    /// The number ends before it.
    After,
    /// It is the first digit of an exponent.
    Exponent,
    /// No number goes on like this.
    Wrong,
}

fn after_whole(byte: u8) -> NumberByte
    ensures { result ≡ after_whole byte }
{
    match byte {
        b'.' => NumberByte::Inside(Part::Point),
        b'e' | b'E' => NumberByte::Inside(Part::Mark),
        _ => NumberByte::After,
    }
}

/// What a byte is after the part of a number that stands before it.
pub fn number_byte(part: Part, byte: u8) -> NumberByte
    ensures { result ≡ number_byte part byte }
{
    match (part, byte) {
        (Part::Minus, b'0') => NumberByte::Inside(Part::Zero),
        (Part::Minus | Part::Whole, b'0'..=b'9') => NumberByte::Inside(Part::Whole),
        (Part::Minus, _) => NumberByte::Wrong,
        (Part::Zero | Part::Whole, _) => after_whole(byte),
        (Part::Point | Part::Fraction, b'0'..=b'9') => NumberByte::Inside(Part::Fraction),
        (Part::Point, _) => NumberByte::Wrong,
        (Part::Fraction, b'e' | b'E') => NumberByte::Inside(Part::Mark),
        (Part::Fraction, _) => NumberByte::After,
        (Part::Mark, b'+' | b'-') => NumberByte::Inside(Part::Sign),
        (Part::Mark | Part::Sign, b'0'..=b'9') => NumberByte::Exponent,
        (Part::Mark | Part::Sign, _) => NumberByte::Wrong,
    }
}
