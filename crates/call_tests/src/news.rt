// What links report of rows.
use crate::fixture::{number, of_len};
use attempt_ledger::{EndNews, News, RowCause};
use grpc_base::{Code, Metadata, Pushback, Text};
use std::alloc::Global;
use std::test::Fail;

/// What the server asks for, as a word after a status: nothing, `stop`, or milliseconds.
fn pushback_of(words: &[&str]) -> Result<Pushback, Fail> {
    match words.get(4) {
        None => Ok(Pushback::None),
        Some(word) if *word == "stop" => Ok(Pushback::Stop),
        Some(word) => Ok(Pushback::After(word.parse::<u32>()?)),
    }
}

fn ended(alloc: Global, row: u64, seen: u64, code: Code, cause: RowCause) -> News {
    News::Ended {
        tag: row,
        end: EndNews {
            code,
            text: Text::new(alloc),
            meta: Metadata::new(alloc),
            pushback: Pushback::None,
            unseen: matches!(cause, RowCause::Unsent | RowCause::Goaway),
            seen,
            cause,
        },
    }
}

fn status(alloc: Global, row: u64, seen: u64, words: &[&str]) -> Result<News, Fail> {
    let code = Code::new(number(words, 3)?).ok_or("no code")?;
    Ok(News::Ended {
        tag: row,
        end: EndNews {
            code,
            text: Text::new(alloc),
            meta: Metadata::new(alloc),
            pushback: pushback_of(words)?,
            unseen: false,
            seen,
            cause: RowCause::Status,
        },
    })
}

/// A stream of the row that the server refused: it can't have seen the request.
fn refused(alloc: Global, row: u64, seen: u64) -> News {
    News::Ended {
        tag: row,
        end: EndNews {
            code: Code::Unavailable,
            text: Text::new(alloc),
            meta: Metadata::new(alloc),
            pushback: Pushback::None,
            unseen: true,
            seen,
            cause: RowCause::Reset,
        },
    }
}

/// Ends without a status.
fn other_end(alloc: Global, row: u64, seen: u64, verb: &str) -> Result<News, Fail> {
    let code = Code::Unavailable;
    match verb {
        "refused" => Ok(refused(alloc, row, seen)),
        "unsent" => Ok(ended(alloc, row, seen, code, RowCause::Unsent)),
        "goaway" => Ok(ended(alloc, row, seen, code, RowCause::Goaway)),
        "reset" => Ok(ended(alloc, row, seen, Code::Internal, RowCause::Reset)),
        "lost" => Ok(ended(alloc, row, seen, code, RowCause::Lost)),
        _ => Err("a word that nothing does".into()),
    }
}

/// The news of a row that the words of a step name, of so many bytes of its link.
pub fn news_of(
    alloc: Global,
    verb: &str,
    row: u64,
    seen: u64,
    words: &[&str],
) -> Result<News, Fail> {
    match verb {
        "head" => Ok(News::Head {
            tag: row,
            meta: Metadata::new(alloc),
            seen,
        }),
        "message" => Ok(News::Message {
            tag: row,
            octets: of_len(alloc, number(words, 3)?)?,
            seen,
        }),
        "large" => Ok(News::TooLarge { tag: row, seen }),
        "ready" => Ok(News::Ready),
        "status" => status(alloc, row, seen, words),
        _ => other_end(alloc, row, seen, verb),
    }
}
