// A walk over a JSON text, byte by byte: where it is, and the path of what stands there.
use grpc_base::append_decimal;
use std::alloc::Global;

/// A bracket that is open.
#[derive(Clone, Copy)]
struct Bracket {
    is_object: bool,
    /// How long the path is of what it opens.
    base: usize,
    /// How many names or values have begun in it.
    count: u64,
}

/// What a byte of a text does.
#[derive(Clone, Copy, PartialEq, Eq)]
pub enum Event {
    Nothing,
    /// It ends the name at the end of the path.
    Name,
    /// It begins the value at the path.
    Value,
}

/// How far a text was walked over.
#[derive(Drop)]
pub struct Walk {
    open: Vec<Bracket>,
    /// The path, as the details of faults write it; a point or a bracket in a name is a byte that no text has there.
    path: Vec<u8>,
    pub in_string: bool,
    pub is_escaped: bool,
    /// Whether the string that is open, or the last one, is a name.
    pub is_name: bool,
    /// The last byte that is not a space, outside strings but for their closing quotes; 0 before the first one.
    pub last: u8,
    /// How many names or values stood in the bracket that was closed last.
    pub count: u64,
}

impl Walk {
    /// A walk that begins.
    pub fn new(alloc: Global) -> Walk {
        Walk {
            open: Vec::new(alloc),
            path: Vec::new(alloc),
            in_string: false,
            is_escaped: false,
            is_name: false,
            last: 0,
            count: 0,
        }
    }

    pub fn path(&self) -> &[u8] {
        self.path.as_slice()
    }

    /// Whether the innermost open bracket is an object's; None outside of all.
    pub fn in_object(&self) -> Option<bool> {
        match self.open.as_slice().last() {
            Some(bracket) => Some(bracket.is_object),
            None => None,
        }
    }

    /// Whether no bracket and no string is open.
    pub fn is_outside(&self) -> bool {
        self.open.is_empty() && !self.in_string
    }

    /// Walks over the next byte. Where memory is wanting, the path is wrong.
    pub fn step(&mut self, byte: u8) -> Event {
        if self.in_string {
            return self.step_in_string(byte);
        }
        match byte {
            b' ' | b'\t' | b'\r' | b'\n' => return Event::Nothing,
            b'}' | b']' => {
                if let Some(bracket) = self.open.pop() {
                    self.path.truncate(bracket.base);
                    self.count = bracket.count;
                }
                self.last = byte;
                return Event::Nothing;
            }
            _ => {}
        }
        let begins = matches!(self.last, 0 | b'{' | b'[' | b',' | b':')
            && byte != b','
            && byte != b':';
        let event = if begins { self.begin() } else { Event::Nothing };
        if byte == b'"' {
            self.in_string = true;
            self.is_name = event == Event::Name;
            return if self.is_name { Event::Nothing } else { event };
        }
        if byte == b'{' || byte == b'[' {
            let _ = self.open.push(Bracket {
                is_object: byte == b'{',
                base: self.path.len(),
                count: 0,
            });
        }
        self.last = byte;
        event
    }

    /// Begins a name or a value.
    fn begin(&mut self) -> Event {
        let Some(bracket) = self.open.pop() else {
            return Event::Value;
        };
        let is_value = bracket.is_object && self.last == b':';
        let count = if is_value {
            bracket.count
        } else {
            bracket.count.saturating_add(1)
        };
        let _ = self.open.push(Bracket { count, ..bracket });
        if is_value {
            return Event::Value;
        }
        self.path.truncate(bracket.base);
        if bracket.is_object {
            if bracket.base > 0 {
                let _ = self.path.push(b'.');
            }
            return Event::Name;
        }
        let _ = self.path.push(b'[');
        let _ = append_decimal(&mut self.path, bracket.count);
        let _ = self.path.push(b']');
        Event::Value
    }

    fn step_in_string(&mut self, byte: u8) -> Event {
        if self.is_escaped {
            self.is_escaped = false;
        } else if byte == b'\\' {
            self.is_escaped = true;
        } else if byte == b'"' {
            self.in_string = false;
            self.last = b'"';
            return if self.is_name {
                Event::Name
            } else {
                Event::Nothing
            };
        }
        if self.is_name {
            let _ = self.path.push(match byte {
                b'.' | b'[' => 0,
                byte => byte,
            });
        }
        Event::Nothing
    }
}
