// Why a source gave no script.
ghost use Rattle.std.specs.Prelude.{◌≡◌, ℕ};
ghost use Rattle.script_input.specs.Collecting.{input_fault};

use script_lines::{BadLine, LineFault};
use std::alloc::{AllocError, AllocFailed};

/// Why a source gave no script.
#[derive(Clone, Copy, Debug, PartialEq, Eq)]
pub enum InputFault {
    /// The input has no bytes.
    Empty,
    /// The first bad line, counted from 1, and its cause, from 1 to 12.
    BadLine { line: u64, cause: u8 },
    /// A read failed before the input's end and before its first bad line.
    ReadFailed,
    /// Out of memory.
    NoMemory,
}

impl From<AllocError> for InputFault {
    ghost use Rattle.std.specs.Prelude.{◌≡◌};
    ghost use Rattle.script_input.specs.declared.fault.InputFault.TheVariants as faults;

    ghost from_gives = { λ _ e. e ≡ faults.NoMemory };

    fn from(_e: AllocError) -> InputFault {
        InputFault::NoMemory
    }
}

impl<T: Drop> From<AllocFailed<T>> for InputFault {
    ghost use Rattle.std.specs.Prelude.{◌≡◌};
    ghost use Rattle.script_input.specs.declared.fault.InputFault.TheVariants as faults;

    ghost from_gives = { λ _ e. e ≡ faults.NoMemory };

    fn from(_e: AllocFailed<T>) -> InputFault {
        InputFault::NoMemory
    }
}

/// The fault of the line of a number.
pub fn fault_at(number: u64, fault: LineFault) -> InputFault
    ensures bad { (cause : ℕ) → fault ≡ LineFault.Bad cause → result ≡ InputFault.BadLine number cause }
    ensures no_memory { fault ≡ LineFault.NoMemory → result ≡ InputFault.NoMemory }
{
    match fault {
        LineFault::Bad { cause } => InputFault::BadLine {
            line: number,
            cause,
        },
        LineFault::NoMemory => InputFault::NoMemory,
    }
}

/// The fault of a bad line.
pub fn fault_of(bad: BadLine) -> InputFault
    ensures { result ≡ input_fault bad }
{
    match bad {
        BadLine::At { line, cause } => InputFault::BadLine { line, cause },
        BadLine::NoMemory => InputFault::NoMemory,
    }
}
