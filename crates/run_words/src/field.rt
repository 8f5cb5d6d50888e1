// One field of a line of a report, as far as its meaning asks for.

/// How many bytes of a field are kept: a longer one is no word that counts.
const ROOM: usize = 24;

/// The bytes of the field that is being read.
#[derive(Drop)]
pub struct Field {
    bytes: [u8; ROOM],
    count: usize,
    is_long: bool,
}

impl Field {
    /// A field of which nothing was read yet.
    pub fn new() -> Field {
        Field {
            bytes: [0; ROOM],
            count: 0,
            is_long: false,
        }
    }

    /// Takes its next byte.
    pub fn push(&mut self, byte: u8) {
        match self.bytes.as_mut_slice().get_mut(self.count) {
            Some(place) => {
                *place = byte;
                self.count += 1;
            }
            None => self.is_long = true,
        }
    }

    /// What was read of it; nothing where it is too long to count.
    pub fn text(&self) -> &[u8] {
        if self.is_long {
            return &[];
        }
        self.bytes.as_slice().get(..self.count).unwrap_or(&[])
    }

    /// Begins the next field.
    pub fn clear(&mut self) {
        self.count = 0;
        self.is_long = false;
    }
}
