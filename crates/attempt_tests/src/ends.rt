// Ends of attempts, and policies, for the tests.
use attempt_ledger::{RowCause, RowEnd};
use grpc_base::{Code, CodeSet, Metadata, Moment, Pushback, Text};
use std::alloc::Global;
use std::test::Fail;

/// An end by a status.
pub fn ended(alloc: Global, moment: u64, code: Code, pushback: Pushback) -> Result<RowEnd, Fail> {
    Ok(RowEnd {
        entry: 1,
        moment: Moment::new(moment).ok_or("a moment")?,
        code,
        text: Text::new(alloc),
        meta: Metadata::new(alloc),
        pushback,
        unseen: false,
        seen: 0,
        cause: RowCause::Status,
        tokens: None,
        word: None,
    })
}

/// The code UNAVAILABLE alone.
pub fn unavailable() -> CodeSet {
    let mut codes = CodeSet::new();
    codes.add(Code::Unavailable);
    codes
}
