// Why a line is bad.
ghost use Rattle.std.specs.Prelude.{◌≡◌};

use grpc_base::NoMemory;

/// The first line of a channel's script is no channel line.
pub const NO_CHANNEL: u8 = 1;
/// A line has more than 8,400,000 bytes.
pub const TOO_LONG: u8 = 2;
/// A byte is not printable ASCII, or no line feed ends the line.
pub const NOT_TEXT: u8 = 3;
/// A number has another spelling than its own, or it is out of its range.
pub const BAD_NUMBER: u8 = 4;
/// A name that this kind of script does not have, or a wait that is none.
pub const UNKNOWN_KIND: u8 = 5;
/// The number of fields does not fit.
pub const BAD_COUNT: u8 = 6;
/// Bytes are not in lower-case hex.
pub const BAD_HEX: u8 = 7;
/// A path is none.
pub const BAD_PATH: u8 = 8;
/// Metadata is not what a request may send.
pub const BAD_METADATA: u8 = 9;
/// An address or a target is none.
pub const BAD_ADDRESS: u8 = 10;
/// A value is well spelled and past its limit.
pub const PAST_LIMIT: u8 = 11;
/// A line stands past the last one that a script may have.
pub const TOO_MANY: u8 = 12;

/// Why a text is not read.
#[derive(Clone, Copy, Debug, PartialEq, Eq)]
pub enum LineFault {
    /// It is bad, for this cause.
    Bad { cause: u8 },
    NoMemory,
}

impl From<NoMemory> for LineFault {
    ghost use Rattle.std.specs.Prelude.{◌≡◌};
    ghost use Rattle.script_lines.specs.declared.cause.LineFault.TheVariants as faults;

    ghost from_gives = { λ _ e. e ≡ faults.NoMemory };

    fn from(_e: NoMemory) -> LineFault {
        LineFault::NoMemory
    }
}

/// The fault of this cause.
pub fn bad(cause: u8) -> LineFault
    ensures { result ≡ LineFault.Bad cause }
{
    LineFault::Bad { cause }
}
