// Status codes in a config.
ghost use Rattle.std.specs.Prelude.{◌≡◌, option_and_then};
ghost use Rattle.std.specs.Str.{str_eq_ignore_ascii_case};
ghost use Rattle.json_text.specs.Views.{tree_of};
ghost use Rattle.config_values.specs.Codes.{code_name, code_named, code_numbered, failure_numbered, failure_named, failure_in};
ghost use Rattle.config_values.specs.Values.{up_to, whole};

use crate::value::whole_up_to;
use grpc_base::Code;
use json_text::Json;

/// The name of a code.
fn code_name(code: Code) -> &'static [u8]
    ensures { result.now ≡ code_name code }
{
    match code {
        Code::Ok => b"OK",
        Code::Cancelled => b"CANCELLED",
        Code::Unknown => b"UNKNOWN",
        Code::InvalidArgument => b"INVALID_ARGUMENT",
        Code::DeadlineExceeded => b"DEADLINE_EXCEEDED",
        Code::NotFound => b"NOT_FOUND",
        Code::AlreadyExists => b"ALREADY_EXISTS",
        Code::PermissionDenied => b"PERMISSION_DENIED",
        Code::ResourceExhausted => b"RESOURCE_EXHAUSTED",
        Code::FailedPrecondition => b"FAILED_PRECONDITION",
        Code::Aborted => b"ABORTED",
        Code::OutOfRange => b"OUT_OF_RANGE",
        Code::Unimplemented => b"UNIMPLEMENTED",
        Code::Internal => b"INTERNAL",
        Code::Unavailable => b"UNAVAILABLE",
        Code::DataLoss => b"DATA_LOSS",
        Code::Unauthenticated => b"UNAUTHENTICATED",
    }
}

/// The codes of failed calls.
const FAILURES: [Code; 16] = [
    Code::Cancelled,
    Code::Unknown,
    Code::InvalidArgument,
    Code::DeadlineExceeded,
    Code::NotFound,
    Code::AlreadyExists,
    Code::PermissionDenied,
    Code::ResourceExhausted,
    Code::FailedPrecondition,
    Code::Aborted,
    Code::OutOfRange,
    Code::Unimplemented,
    Code::Internal,
    Code::Unavailable,
    Code::DataLoss,
    Code::Unauthenticated,
];

/// Whether two texts are the same but for the case of ASCII's letters.
#[tactic(auto, using(crate::proofs::Letters::same_test))]
fn same_letters(text: &[u8], other: &[u8]) -> bool
    ensures { result ≡ str_eq_ignore_ascii_case text.now other.now }
{
    text.eq_ignore_ascii_case(other)
}

/// The first of these codes with this name, whatever the case of ASCII's letters.
fn code_named(name: &[u8], codes: &[Code]) -> Option<Code>
    ensures { result ≡ code_named name.now codes.now }
{
    codes
        .iter()
        .copied()
        .find(|code| same_letters(code_name(*code), name))
}

/// The first of these codes with this number.
fn code_numbered(number: u64, codes: &[Code]) -> Option<Code>
    ensures { result ≡ code_numbered number codes.now }
{
    codes
        .iter()
        .copied()
        .find(|code| code.number() as u64 == number)
}

#[tactic(auto, unfolding(crate::specs::Codes::failure_numbered))]
fn failure_numbered(number: u64) -> Option<Code>
    ensures { result ≡ failure_numbered number }
{
    code_numbered(number, &FAILURES)
}

#[tactic(auto, unfolding(crate::specs::Codes::failure_named))]
fn failure_named(name: &[u8]) -> Option<Code>
    ensures { result ≡ failure_named name.now }
{
    code_named(name, &FAILURES)
}

fn failure_spelled(text: &[u8]) -> Option<Code>
    ensures { result ≡ option_and_then failure_numbered (option_and_then (up_to 16) (whole text.now)) }
{
    let number = whole_up_to(17, text)?;
    if number > 16 {
        return None;
    }
    failure_numbered(number)
}

/// A code of a failed call: a number from 1 to 16, or a name.
pub fn failure_in(value: &Json) -> Option<Code>
    ensures { result ≡ failure_in (tree_of value.now) }
{
    match value {
        Json::Number(text) => failure_spelled(text.as_slice()),
        Json::Str(name) => failure_named(name.as_slice()),
        _ => None,
    }
}
