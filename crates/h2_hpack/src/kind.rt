// The representations that a header block is made of (RFC 7541, section 6), by the bits of the first byte:
//
//   1.......   an index
//   01......   a literal that the dynamic table gets: an index of its name, or 0 and the name
//   001.....   a new size of the dynamic table
//   0001....   a literal that no hop puts into a table
//   0000....   a literal that is not put into the table
//
// The dots begin an integer.
ghost use Rattle.std.specs.Prelude.{◌≡◌};
ghost use Rattle.h2_hpack.specs.Kinds.{kind_of};

/// A kind of representation (RFC 7541, section 6).
#[derive(Clone, Copy, Debug, PartialEq, Eq)]
pub(crate) enum Kind {
    /// An indexed header field (6.1).
    Indexed,
    /// A literal that is added to the dynamic table (6.2.1).
    LiteralWithIncrementalIndexing,
    /// A dynamic table size update (6.3).
    DynamicTableSizeUpdate,
    /// A literal that is not added (6.2.2).
    LiteralWithoutIndexing,
    /// A literal that is not added, nor by any other hop (6.2.3).
    LiteralNeverIndexed,
}

/// The kind that the first byte says.
pub(crate) fn kind_of(first: u8) -> Kind
    ensures { result ≡ kind_of first }
{
    match first {
        128.. => Kind::Indexed,
        64..128 => Kind::LiteralWithIncrementalIndexing,
        32..64 => Kind::DynamicTableSizeUpdate,
        16..32 => Kind::LiteralNeverIndexed,
        0..16 => Kind::LiteralWithoutIndexing,
    }
}
