// The end that the application takes.
ghost use Rattle.std.specs.Prelude.{◌≡◌, IfOk};
ghost use Rattle.std.specs.Option.{option_copied};
ghost use Rattle.call_core.specs.Parts.{channel_end, code_of, end_at, end_reply, is_by_row};

use attempt_ledger::{Ledger, Row, RowEnd};
use grpc_base::{Code, EndCause, Metadata, NoMemory, Reply, Text};
use ledger_stamps::index_of;
use std::alloc::Global;

/// The code of a call that the channel ended.
fn code_of(cause: EndCause) -> Code
    ensures { result ≡ code_of cause }
{
    match cause {
        EndCause::Row => Code::Unknown,
        EndCause::Deadline => Code::DeadlineExceeded,
        EndCause::Cancelled => Code::Cancelled,
        EndCause::Request | EndCause::Response => Code::ResourceExhausted,
        EndCause::NoConfig | EndCause::Shut => Code::Unavailable,
    }
}

fn is_by_row(cause: EndCause) -> bool
    ensures { result ≡ is_by_row cause }
{
    matches!(cause, EndCause::Row)
}

/// The end of the row at a place.
fn end_at(rows: &[Row], place: Option<u64>) -> Option<&RowEnd>
    ensures { option_copied result ≡ end_at rows.now place }
{
    let row = rows.get(index_of(place?, rows.len())?)?;
    row.ended.as_ref()
}

/// The end that the channel made: it has no text and no metadata.
fn channel_end(alloc: Global, cause: EndCause) -> Reply
    ensures { result ≡ channel_end cause }
{
    Reply::End {
        code: code_of(cause),
        text: Text::new(alloc),
        meta: Metadata::new(alloc),
        cause,
    }
}

/// The end of a call: that of the row to which it is committed, or the channel's own.
pub fn end_reply(
    alloc: Global,
    rows: &[Row],
    committed: Option<u64>,
    cause: EndCause,
) -> Result<Reply, NoMemory>
    ensures { IfOk result (λ r. r ≡ end_reply rows.now committed cause) }
{
    if !is_by_row(cause) {
        return Ok(channel_end(alloc, cause));
    }
    let Some(end) = end_at(rows, committed) else {
        return Ok(channel_end(alloc, EndCause::Row));
    };
    let text = end.text.copy()?;
    let meta = end.meta.copy()?;
    Ok(Reply::End {
        code: end.code,
        text,
        meta,
        cause: EndCause::Row,
    })
}
