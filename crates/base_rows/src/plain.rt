// Plain data.
use crate::policies::small;
use grpc_base::{
    Address, AnswerLine, AnswerPart, Items, MetaFault, Metadata, Octets, Request, RequestFault,
    ServerScript, Text, is_path, names_of_path, read_number,
};
use std::alloc::Global;
use table_rows::{Said, Wrong, bytes_of, number};

/// Pushes a pair, as `name=value`, and appends the answer.
fn push_pair(alloc: Global, meta: &mut Metadata, pair: &str, out: &mut Said) -> Result<(), Wrong> {
    let (name, value) = pair.split_once('=').ok_or(Wrong::Form)?;
    let name = bytes_of(alloc, name)?;
    let value = bytes_of(alloc, value)?;
    match meta.push(name.as_slice(), value.as_slice()) {
        Ok(()) => out.text(b"taken "),
        Err(MetaFault::BadName) => out.text(b"bad name "),
        Err(MetaFault::BadValue) => out.text(b"bad value "),
        Err(MetaFault::TooLong) => out.text(b"too long "),
        Err(MetaFault::NoMemory) => return Err(Wrong::NoMemory),
    }
    Ok(())
}

/// Whether a request takes each name and value, and how many it has then.
pub fn metadata(alloc: Global, input: &str, out: &mut Said) -> Result<(), Wrong> {
    let mut meta = Metadata::new(alloc);
    for pair in input.split(' ') {
        push_pair(alloc, &mut meta, pair, out)?;
    }
    out.number(meta.len() as u64);
    Ok(())
}

/// Whether a request of a timeout, or of `-` for none, and a path is made, and whether the path is one.
pub fn path(alloc: Global, input: &str, out: &mut Said) -> Result<(), Wrong> {
    let (timeout, path) = input.split_once(' ').ok_or(Wrong::Form)?;
    let timeout = if timeout == "-" {
        None
    } else {
        Some(number(timeout)?)
    };
    let path = Text::of_vec(bytes_of(alloc, path)?);
    out.text(if is_path(path.as_slice()) {
        b"path".as_slice()
    } else {
        b"none"
    });
    match Request::new(path, Metadata::new(alloc), None, timeout) {
        Ok(_) => out.text(b" made"),
        Err(RequestFault::BadPath) => out.text(b" bad path"),
        Err(RequestFault::BadTimeout) => out.text(b" bad timeout"),
    }
    Ok(())
}

/// An address and a port, as numbers, as they are written.
pub fn address(alloc: Global, input: &str, out: &mut Said) -> Result<(), Wrong> {
    let (ip, port) = input.split_once(' ').ok_or(Wrong::Form)?;
    let Ok(port) = u16::try_from(small(port)?) else {
        return Err(Wrong::Form);
    };
    let ip = small(ip)?;
    let mut written = Vec::new(alloc);
    Address { ip, port }.append_to(&mut written)?;
    out.text(written.as_slice());
    Ok(())
}

/// The number that a text is read as.
pub fn read(alloc: Global, input: &str, out: &mut Said) -> Result<(), Wrong> {
    match read_number(bytes_of(alloc, input)?.as_slice()) {
        Some(number) => out.number(number),
        None => out.text(b"none"),
    }
    Ok(())
}

/// The service and the method of a path.
pub fn names(alloc: Global, input: &str, out: &mut Said) -> Result<(), Wrong> {
    let path = bytes_of(alloc, input)?;
    match names_of_path(path.as_slice()) {
        Some((service, method)) => {
            out.text(service);
            out.text(b" ");
            out.text(method);
        }
        None => out.text(b"none"),
    }
    Ok(())
}

/// A part of an answer by its letter.
fn part(alloc: Global, letter: char) -> Result<AnswerPart, Wrong> {
    Ok(match letter {
        'h' => AnswerPart::Head,
        'm' => AnswerPart::Message(Octets::of_static(b"x")),
        'p' => AnswerPart::Pushback(Text::of_slice(alloc, b"-1")?),
        ',' => AnswerPart::Pushback(Text::of_slice(alloc, b"1,2")?),
        's' => AnswerPart::Status(14),
        'r' => AnswerPart::Reset(8),
        'w' => AnswerPart::Hold(2),
        _ => AnswerPart::Goaway,
    })
}

/// The answer of a number and letters, as `2:hr`, to `/a.B/C`.
fn answer_of(alloc: Global, word: &str) -> Result<AnswerLine, Wrong> {
    let (n, letters) = word.split_once(':').ok_or(Wrong::Form)?;
    let n = small(n)?;
    let mut parts = Items::new(alloc);
    for letter in letters.chars() {
        parts.push(part(alloc, letter)?)?;
    }
    let path = Text::of_slice(alloc, b"/a.B/C")?;
    Ok(AnswerLine { path, n, parts })
}

/// Whether a script of these answers to one path is one.
pub fn server(alloc: Global, input: &str, out: &mut Said) -> Result<(), Wrong> {
    let mut script = ServerScript {
        answers: Items::new(alloc),
    };
    for word in input.split(' ') {
        if word != "-" {
            script.answers.push(answer_of(alloc, word)?)?;
        }
    }
    out.text(if script.is_valid() {
        b"valid".as_slice()
    } else {
        b"none"
    });
    Ok(())
}
