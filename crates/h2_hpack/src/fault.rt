// Why a header block is refused.
use grpc_base::NoMemory;
use std::alloc::{AllocError, AllocFailed};
use std::error::Error;
use std::fmt;

/// The first fault of a header block, in the order in which it is read.
#[derive(Clone, Copy, Debug, PartialEq, Eq)]
pub enum HpackFault {
    /// An index of 0, or one past the tables (RFC 7541, section 2.3.3).
    BadIndex,
    /// An integer of more than five bytes after its prefix or above 4,294,967,295, or an integer or a string that
    /// the block cuts off (section 5.1).
    BadInteger,
    /// Huffman text with the end of string, or with padding of more than seven bits or of other bits than the
    /// first ones of that symbol's code (section 5.2).
    BadHuffman,
    /// A dynamic table size update above 4,096, or one after the first field of its block (sections 4.2 and 6.3).
    BadSize,
    /// The sizes of the block's fields come to more than 16,384.
    TooLong,
    /// Out of memory.
    NoMemory,
}

impl fmt::Display for HpackFault {
    fn fmt<W: fmt::Write>(&self, f: &mut fmt::Formatter<W>) -> fmt::Result {
        f.write_str(match self {
            HpackFault::BadIndex => "bad index",
            HpackFault::BadInteger => "bad integer",
            HpackFault::BadHuffman => "bad Huffman text",
            HpackFault::BadSize => "bad table size update",
            HpackFault::TooLong => "header list too long",
            HpackFault::NoMemory => "out of memory",
        })
    }
}

impl Error for HpackFault {}

impl From<NoMemory> for HpackFault {
    ghost use Rattle.std.specs.Prelude.{◌≡◌};
    ghost use Rattle.h2_hpack.specs.declared.fault.HpackFault.TheVariants as fault;

    ghost from_gives = { λ _ e. e ≡ fault.NoMemory };

    fn from(_e: NoMemory) -> HpackFault {
        HpackFault::NoMemory
    }
}

impl From<AllocError> for HpackFault {
    ghost use Rattle.std.specs.Prelude.{◌≡◌};
    ghost use Rattle.h2_hpack.specs.declared.fault.HpackFault.TheVariants as fault;

    ghost from_gives = { λ _ e. e ≡ fault.NoMemory };

    fn from(_e: AllocError) -> HpackFault {
        HpackFault::NoMemory
    }
}

impl<T: Drop> From<AllocFailed<T>> for HpackFault {
    ghost use Rattle.std.specs.Prelude.{◌≡◌};
    ghost use Rattle.h2_hpack.specs.declared.fault.HpackFault.TheVariants as fault;

    ghost from_gives = { λ _ e. e ≡ fault.NoMemory };

    fn from(_e: AllocFailed<T>) -> HpackFault {
        HpackFault::NoMemory
    }
}
