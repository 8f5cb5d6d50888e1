// What links report, as words.
use attempt_ledger::{EndNews, News, RowCause};
use grpc_base::{Field, NoMemory, Pushback};
use h2_link::LinkNews;
use std::alloc::Global;

/// Bytes as text, or a dash where there are none.
fn text_word(alloc: Global, bytes: &[u8]) -> Result<String, NoMemory> {
    if bytes.is_empty() {
        return Ok(format!(in alloc; "-")?);
    }
    Ok(String::from_utf8_lossy(alloc, bytes)?)
}

/// Bytes in hex, or a dash where there are none.
pub fn hex_word(alloc: Global, bytes: &[u8]) -> Result<String, NoMemory> {
    if bytes.is_empty() {
        return Ok(format!(in alloc; "-")?);
    }
    Ok(hex::encode(alloc, bytes)?)
}

fn pair(alloc: Global, field: &Field) -> Result<String, NoMemory> {
    let name = text_word(alloc, field.name.as_slice())?;
    let value = text_word(alloc, field.value.as_slice())?;
    Ok(format!(in alloc; "{name}={value},")?)
}

/// The pairs of a header list, each with a comma after it; a dash where there are none.
fn pairs(alloc: Global, fields: &[Field]) -> Result<String, NoMemory> {
    if fields.is_empty() {
        return Ok(format!(in alloc; "-")?);
    }
    let mut all = String::new(alloc);
    for field in fields {
        all.push_str(pair(alloc, field)?.as_str())?;
    }
    Ok(all)
}

fn end_word(end: bool) -> &'static str {
    if end { "end" } else { "more" }
}

fn block_words(
    alloc: Global,
    tag: u64,
    fields: &[Field],
    end: bool,
    seen: u64,
) -> Result<String, NoMemory> {
    let list = pairs(alloc, fields)?;
    let end = end_word(end);
    Ok(format!(in alloc; " fields {tag} {list} {end} {seen}")?)
}

fn data_words(
    alloc: Global,
    tag: u64,
    bytes: &[u8],
    end: bool,
    seen: u64,
) -> Result<String, NoMemory> {
    let bytes = hex_word(alloc, bytes)?;
    let end = end_word(end);
    Ok(format!(in alloc; " data {tag} {bytes} {end} {seen}")?)
}

/// News of a link's streams.
fn stream_words(alloc: Global, news: &LinkNews) -> Result<String, NoMemory> {
    match news {
        LinkNews::Ready => Ok(format!(in alloc; " ready")?),
        LinkNews::Retiring => Ok(format!(in alloc; " retiring")?),
        LinkNews::Broken { code } => Ok(format!(in alloc; " broken {code}")?),
        LinkNews::Unseen { tag, seen } => Ok(format!(in alloc; " unseen {tag} {seen}")?),
        LinkNews::Reset { tag, code, seen } => {
            Ok(format!(in alloc; " reset {tag} {code} {seen}")?)
        }
        LinkNews::Fault { tag, code, seen } => {
            Ok(format!(in alloc; " fault {tag} {code} {seen}")?)
        }
        LinkNews::Data {
            tag,
            octets,
            end,
            seen,
        } => data_words(alloc, *tag, octets.as_slice(), *end, *seen),
        LinkNews::Fields {
            tag,
            fields,
            end,
            seen,
        } => block_words(alloc, *tag, fields.as_slice(), *end, *seen),
    }
}

fn cause_word(cause: RowCause) -> &'static str {
    match cause {
        RowCause::Status => "status",
        RowCause::Http => "http",
        RowCause::Reset => "reset",
        RowCause::Framing => "framing",
        RowCause::Lost => "lost",
        RowCause::Goaway => "goaway",
        RowCause::Unsent => "unsent",
        RowCause::Pick => "pick",
        RowCause::Cut => "cut",
    }
}

fn pushback_word(alloc: Global, pushback: Pushback) -> Result<String, NoMemory> {
    match pushback {
        Pushback::None => Ok(format!(in alloc; "-")?),
        Pushback::After(millis) => Ok(format!(in alloc; "{millis}")?),
        Pushback::Stop => Ok(format!(in alloc; "stop")?),
    }
}

/// An end: its code, text, metadata and pushback, whether the server cannot have seen the request, the bytes of the link, and
/// the cause.
fn end_words(alloc: Global, tag: u64, end: &EndNews) -> Result<String, NoMemory> {
    let code = end.code.number();
    let text = text_word(alloc, end.text.as_slice())?;
    let meta = pairs(alloc, end.meta.as_slice())?;
    let pushback = pushback_word(alloc, end.pushback)?;
    let unseen = if end.unseen { "unseen" } else { "seen" };
    let seen = end.seen;
    let cause = cause_word(end.cause);
    Ok(format!(in alloc; " ended {tag} {code} {text} {meta} {pushback} {unseen} {seen} {cause}")?)
}

fn head_words(alloc: Global, tag: u64, meta: &[Field], seen: u64) -> Result<String, NoMemory> {
    let list = pairs(alloc, meta)?;
    Ok(format!(in alloc; " head {tag} {list} {seen}")?)
}

fn message_words(alloc: Global, tag: u64, bytes: &[u8], seen: u64) -> Result<String, NoMemory> {
    let bytes = hex_word(alloc, bytes)?;
    Ok(format!(in alloc; " message {tag} {bytes} {seen}")?)
}

/// News of attempts.
fn attempt_words(alloc: Global, news: &News) -> Result<String, NoMemory> {
    match news {
        News::Ready => Ok(format!(in alloc; " ready")?),
        News::Retiring => Ok(format!(in alloc; " retiring")?),
        News::Broken { code } => Ok(format!(in alloc; " broken {code}")?),
        News::Head { tag, meta, seen } => head_words(alloc, *tag, meta.as_slice(), *seen),
        News::Message { tag, octets, seen } => message_words(alloc, *tag, octets.as_slice(), *seen),
        News::TooLarge { tag, seen } => Ok(format!(in alloc; " large {tag} {seen}")?),
        News::Ended { tag, end } => end_words(alloc, *tag, end),
    }
}

/// Appends what a link reported.
pub fn report_streams(
    alloc: Global,
    reported: &mut String,
    news: &[LinkNews],
) -> Result<(), NoMemory> {
    for one in news {
        reported.push_str(stream_words(alloc, one)?.as_str())?;
    }
    Ok(())
}

/// Appends what a link of attempts reported.
pub fn report_attempts(
    alloc: Global,
    reported: &mut String,
    news: &[News],
) -> Result<(), NoMemory> {
    for one in news {
        reported.push_str(attempt_words(alloc, one)?.as_str())?;
    }
    Ok(())
}
