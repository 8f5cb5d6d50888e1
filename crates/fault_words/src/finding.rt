// What is found to be wrong.

/// Something that is wrong, as a row of the table says it.
#[derive(Clone, Copy)]
pub struct Finding<'a> {
    /// The name of the sentence.
    pub sentence: &'a [u8],
    /// The name of the metadata whose value it is about, or nothing.
    pub name: &'a [u8],
    /// The value at fault.
    pub value: &'a [u8],
    /// What goes with it.
    pub other: &'a [u8],
    pub number: u64,
    /// Its place in the line, where it has one.
    pub place: Option<usize>,
}

impl<'a> Finding<'a> {
    /// A finding of this sentence, of a whole line.
    pub fn of(sentence: &'a [u8]) -> Finding<'a> {
        Finding::with(sentence, b"", b"")
    }

    /// A finding of this sentence, value, and what goes with it.
    pub fn with(sentence: &'a [u8], value: &'a [u8], other: &'a [u8]) -> Finding<'a> {
        Finding {
            sentence,
            name: b"",
            value,
            other,
            number: 0,
            place: None,
        }
    }

    /// The finding with this number.
    pub fn counted(self, number: u64) -> Finding<'a> {
        Finding { number, ..self }
    }

    /// The finding at this place of the line.
    pub fn at(self, place: usize) -> Finding<'a> {
        Finding {
            place: Some(place),
            ..self
        }
    }
}
