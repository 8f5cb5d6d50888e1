// What comes on a stream.
use h2_stream::{Stream, StreamFault, StreamState};
use table_rows::{Said, Wrong, number};

/// Hands a word of a row over to a stream: `head`, `data7` or `window7`, with `!` where the stream ends by it.
fn hand_over(stream: &mut Stream, word: &str) -> Result<Result<(), StreamFault>, Wrong> {
    let (word, ends) = match word.strip_suffix('!') {
        Some(word) => (word, true),
        None => (word, false),
    };
    if word == "head" {
        return Ok(stream.on_headers(ends));
    }
    let (text, is_data) = match word.strip_prefix("data") {
        Some(text) => (text, true),
        None => (word.strip_prefix("window").unwrap_or(word), false),
    };
    let Ok(count) = u32::try_from(number(text)?) else {
        return Err(Wrong::Form);
    };
    if is_data {
        Ok(stream.on_data(count, ends))
    } else {
        Ok(stream.on_window(count))
    }
}

fn append_answer(out: &mut Said, answer: Result<(), StreamFault>) {
    match answer {
        Ok(()) => out.text(b"ok "),
        Err(StreamFault::Stream(code)) => {
            out.text(b"stream ");
            out.number(u64::from(code));
            out.text(b" ");
        }
        Err(StreamFault::Link(code)) => {
            out.text(b"link ");
            out.number(u64::from(code));
            out.text(b" ");
        }
    }
}

/// The answer to the last word, and the state then.
pub fn stream(input: &str, out: &mut Said) -> Result<(), Wrong> {
    let mut stream = Stream::new(100, 100);
    let mut answer = Ok(());
    for word in input.split(' ') {
        if answer.is_err() {
            return Err(Wrong::Form);
        }
        answer = hand_over(&mut stream, word)?;
    }
    append_answer(out, answer);
    let state: &[u8] = match stream.state() {
        StreamState::Open => b"Open",
        StreamState::HalfClosedLocal => b"HalfClosedLocal",
        StreamState::HalfClosedRemote => b"HalfClosedRemote",
        StreamState::Closed => b"Closed",
    };
    out.text(state);
    Ok(())
}
