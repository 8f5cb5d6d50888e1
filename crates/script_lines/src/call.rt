// A call of a live script.
ghost use Rattle.std.specs.Prelude.{◌≡◌, ◌++◌, ℕ, List, map, IfOk, IfErr, OnOk};
ghost use Rattle.std.specs.Option.{option_copied};
ghost use Rattle.script_lines.specs.Fields.{AreFieldsFault, AreMessages, message_field};
ghost use Rattle.script_lines.specs.Lines.{IsCallFault, IsCallText, IsReportedBy, fields_after};

use crate::cause::{BAD_COUNT, LineFault, bad};
use crate::field::{message_field_of, worker_of};
use crate::request::request_of;
use crate::split::{are_at_most, five_fields, next_field};
use grpc_base::{CallLine, Items, Octets};
use std::alloc::Global;

/// The worker and the call that these fields give.
pub fn call_of(alloc: Global, rest: Option<&[u8]>) -> Result<(u32, CallLine), LineFault>
    ensures ok { IfOk result (λ p. IsCallText (fields_after (option_copied rest.entry)) p.0 p.1) }
    ensures bad { IfErr result (IsReportedBy (IsCallFault (fields_after (option_copied rest.entry)))) }
{
    let Some((worker, path, wait, timeout, meta, texts)) = five_fields(rest) else {
        return Err(bad(BAD_COUNT));
    };
    if !are_at_most(texts, 64) {
        return Err(bad(BAD_COUNT));
    }
    let worker = worker_of(worker)?;
    let request = request_of(alloc, path, wait, timeout, meta)?;
    let mut messages = Items::new(alloc);
    append_messages(alloc, texts, &mut messages)?;
    Ok((worker, CallLine { request, messages }))
}

/// Appends the messages of these fields.
fn append_messages(
    alloc: Global,
    rest: Option<&[u8]>,
    messages: &mut Items<Octets>,
) -> Result<(), LineFault>
    ensures ok { OnOk result ((more : List (List ℕ)) × (messages.new ≡ messages.old ++ more) × AreMessages more (fields_after (option_copied rest.entry))) }
    ensures bad { IfErr result (IsReportedBy (AreFieldsFault (map (λ message. message_field) (fields_after (option_copied rest.entry))) (fields_after (option_copied rest.entry)))) }
{
    let Some((text, rest)) = next_field(rest) else {
        return Ok(());
    };
    let message = message_field_of(alloc, text)?;
    messages.push(message)?;
    append_messages(alloc, rest, messages)?;
    Ok(())
}
