// A decoder of header blocks.
ghost use Rattle.std.specs.Prelude.{◌≡◌, ◌≢◌, ◌≤◌, ◌<◌, length, Ok, Err, IfOk, IfErr};
ghost use Rattle.h2_hpack.specs.Blocks.{block_of, next_as, resized, decoded, fields_in, table_in};
ghost use Rattle.h2_hpack.specs.Tables.{new_table};
ghost use Rattle.h2_hpack.specs.Kinds.{kind_of};

use crate::fault::HpackFault;
use crate::kind::{Kind, kind_of};
use crate::list::HeaderList;
use crate::representation::{indexed, literal, table_size};
use crate::table::DynamicTable;
use grpc_base::Fields;
use std::alloc::Global;
use std::marker::Model;

/// A decoder of the header blocks of one direction of a connection, in their order.
#[derive(Debug, Drop)]
pub struct Decoder {
    alloc: Global,
    table: DynamicTable,
    fault: Option<HpackFault>,
}

impl Model for Decoder {
    ghost use Rattle.h2_hpack.specs.Blocks.{State, state_of};

    ghost Value = { State };

    ghost view = { λ d. state_of d.table d.fault };
}

impl Decoder {
    /// A decoder with an empty dynamic table of at most 4,096.
    pub fn new(alloc: Global) -> Decoder
        ensures { result ≡ Ok new_table }
    {
        Decoder {
            alloc,
            table: DynamicTable::new(alloc),
            fault: None,
        }
    }

    /// The header list of the next block, or the first fault in reading order (RFC 7541, section 3).
    /// After any fault, out of memory among them, each later block gets the same answer: its dynamic table is then no
    /// longer that of the peer.
    pub fn block(&mut self, block: &[u8]) -> Result<Fields, HpackFault>
        ensures list { IfOk result (λ fields. fields_in (decoded self.old block.now) ≡ Ok fields) }
        ensures table { IfOk result (λ _. self.new ≡ table_in (decoded self.old block.now)) }
        ensures fault { IfErr result (λ e. e ≢ HpackFault.NoMemory → decoded self.old block.now ≡ Err e) }
        ensures spent { IfErr result (λ e. self.new ≡ Err e) }
        ensures again { IfErr self.old (λ e. result ≡ Err e) }
    {
        if let Some(fault) = self.fault {
            return Err(fault);
        }
        match read_block(self.alloc, &mut self.table, block) {
            Ok(fields) => Ok(fields),
            Err(fault) => {
                self.fault = Some(fault);
                Err(fault)
            }
        }
    }
}

/// The header list of a block over a dynamic table, which becomes the table after it.
fn read_block(alloc: Global, table: &mut DynamicTable, block: &[u8]) -> Result<Fields, HpackFault>
    ensures ok { IfOk result (λ fields. block_of table.old block.now ≡ Ok (record { fields = fields; table = table.new })) }
    ensures fault { IfErr result (λ e. e ≢ HpackFault.NoMemory → block_of table.old block.now ≡ Err e) }
{
    let mut list = HeaderList::new(alloc)?;
    let mut rest = block;
    while let [first, after @ ..] = rest {
        rest = read_representation(alloc, table, &mut list, *first, after)?;
    }
    Ok(list.into_fields())
}

/// Reads one representation, and gives what follows it.
fn read_representation<'a>(
    alloc: Global,
    table: &mut DynamicTable,
    list: &mut HeaderList,
    first: u8,
    bytes: &'a [u8],
) -> Result<&'a [u8], HpackFault>
    ensures ok { IfOk result (λ rest. next_as (kind_of first) (record { fields = list.old; table = table.old }) first bytes.now ≡ Ok (record { fields = list.new; table = table.new }, rest.now)) }
    ensures shorter { IfOk result (λ rest. length rest.now ≤ length bytes.now) }
    ensures fault { IfErr result (λ e. e ≢ HpackFault.NoMemory → next_as (kind_of first) (record { fields = list.old; table = table.old }) first bytes.now ≡ Err e) }
{
    match kind_of(first) {
        Kind::Indexed => read_indexed(table, list, first, bytes),
        Kind::LiteralWithIncrementalIndexing => read_literal_with_indexing(
            alloc, table, list, first, bytes,
        ),
        Kind::DynamicTableSizeUpdate => read_size_update(table, list, first, bytes),
        Kind::LiteralWithoutIndexing | Kind::LiteralNeverIndexed => {
            read_literal(alloc, table, list, first, bytes)
        }
    }
}

/// Reads an indexed field.
fn read_indexed<'a>(
    table: &DynamicTable,
    list: &mut HeaderList,
    first: u8,
    bytes: &'a [u8],
) -> Result<&'a [u8], HpackFault>
    ensures ok { IfOk result (λ rest. next_as Kind.Indexed (record { fields = list.old; table = table.now }) first bytes.now ≡ Ok (record { fields = list.new; table = table.now }, rest.now)) }
    ensures shorter { IfOk result (λ rest. length rest.now ≤ length bytes.now) }
    ensures fault { IfErr result (λ e. e ≢ HpackFault.NoMemory → next_as Kind.Indexed (record { fields = list.old; table = table.now }) first bytes.now ≡ Err e) }
{
    let (field, rest) = indexed(table, first, bytes)?;
    list.push(field)?;
    Ok(rest)
}

/// Reads a literal with incremental indexing, and adds it to the dynamic table.
fn read_literal_with_indexing<'a>(
    alloc: Global,
    table: &mut DynamicTable,
    list: &mut HeaderList,
    first: u8,
    bytes: &'a [u8],
) -> Result<&'a [u8], HpackFault>
    ensures ok { IfOk result (λ rest. next_as Kind.LiteralWithIncrementalIndexing (record { fields = list.old; table = table.old }) first bytes.now ≡ Ok (record { fields = list.new; table = table.new }, rest.now)) }
    ensures shorter { IfOk result (λ rest. length rest.now ≤ length bytes.now) }
    ensures fault { IfErr result (λ e. e ≢ HpackFault.NoMemory → next_as Kind.LiteralWithIncrementalIndexing (record { fields = list.old; table = table.old }) first bytes.now ≡ Err e) }
{
    let (field, rest) = literal(alloc, table, 6, first, bytes)?;
    table.add(&field)?;
    list.push(field)?;
    Ok(rest)
}

/// Reads a literal that the dynamic table does not get.
fn read_literal<'a>(
    alloc: Global,
    table: &DynamicTable,
    list: &mut HeaderList,
    first: u8,
    bytes: &'a [u8],
) -> Result<&'a [u8], HpackFault>
    ensures ok { IfOk result (λ rest. next_as Kind.LiteralWithoutIndexing (record { fields = list.old; table = table.now }) first bytes.now ≡ Ok (record { fields = list.new; table = table.now }, rest.now)) }
    ensures shorter { IfOk result (λ rest. length rest.now ≤ length bytes.now) }
    ensures fault { IfErr result (λ e. e ≢ HpackFault.NoMemory → next_as Kind.LiteralWithoutIndexing (record { fields = list.old; table = table.now }) first bytes.now ≡ Err e) }
{
    let (field, rest) = literal(alloc, table, 4, first, bytes)?;
    list.push(field)?;
    Ok(rest)
}

/// Reads a dynamic table size update, before which no field may stand.
fn read_size_update<'a>(
    table: &mut DynamicTable,
    list: &HeaderList,
    first: u8,
    bytes: &'a [u8],
) -> Result<&'a [u8], HpackFault>
    ensures ok { IfOk result (λ rest. resized (record { fields = list.now; table = table.old }) first bytes.now ≡ Ok (record { fields = list.now; table = table.new }, rest.now)) }
    ensures shorter { IfOk result (λ rest. length rest.now ≤ length bytes.now) }
    ensures fault { IfErr result (λ e. e ≢ HpackFault.NoMemory → resized (record { fields = list.now; table = table.old }) first bytes.now ≡ Err e) }
{
    if !list.is_empty() {
        return Err(HpackFault::BadSize);
    }
    let (limit, rest) = table_size(first, bytes)?;
    table.resize(limit);
    Ok(rest)
}
