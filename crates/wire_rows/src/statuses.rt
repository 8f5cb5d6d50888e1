// Codes and messages of statuses.
use grpc_status::{message_text, of_http, of_reset, of_text};
use std::alloc::Global;
use table_rows::{Said, Wrong, bytes_of, number};

/// The number of the code of an HTTP status, of a RST_STREAM code or of a text.
pub fn code(alloc: Global, kind: &str, input: &str, out: &mut Said) -> Result<(), Wrong> {
    let code = if kind == "status" {
        of_text(bytes_of(alloc, input)?.as_slice())
    } else {
        let Ok(number) = u32::try_from(number(input)?) else {
            return Err(Wrong::Form);
        };
        if kind == "http" {
            of_http(number)
        } else {
            of_reset(number)
        }
    };
    out.number(u64::from(code.number()));
    Ok(())
}

/// The text of a `grpc-message`.
pub fn message(alloc: Global, input: &str, out: &mut Said) -> Result<(), Wrong> {
    let text = message_text(alloc, bytes_of(alloc, input)?.as_slice())?;
    out.text(text.as_slice());
    Ok(())
}
