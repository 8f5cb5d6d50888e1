// Addresses with commas.
ghost use Rattle.std.specs.Prelude.{◌≡◌, ◌≤◌, ◌<◌, ◌+◌, List, length, IfOk, IfErr};
ghost use Rattle.grpc_base.specs.Addresses.{address_limit, with_address};
ghost use Rattle.grpc_base.specs.declared.address.Address.{Address};
ghost use Rattle.script_fields.specs.Reading.{IsFieldFault, SpellsAddresses, listed};

use crate::FieldFault;
use crate::read::address::address_of;
use grpc_base::limits::ADDRESSES;
use grpc_base::{Address, AddressList, first_piece};

/// The addresses of this text, each once, of at most 64 that stand there; a dash is none.
pub fn addresses_of(text: &[u8]) -> Result<AddressList, FieldFault>
    ensures ok { IfOk result (λ l. (xs : List Address) × SpellsAddresses text.now xs × (length xs ≤ address_limit) × (l ≡ listed xs)) }
    ensures bad { IfErr result (IsFieldFault (SpellsAddresses text.now) (λ xs. address_limit < length xs)) }
    ensures no_memory { IfErr result (λ e. e ≡ FieldFault.NoMemory → ⊥) }
{
    let mut list = AddressList::new();
    if text == b"-".as_slice() {
        return Ok(list);
    }
    let mut count = 0usize;
    let mut rest = Some(text);
    while let Some(items) = rest {
        let (item, afterwards) = first_piece(items, b',');
        let Some(address) = address_of(item) else {
            return Err(FieldFault::Form);
        };
        count = add(&mut list, count, address);
        rest = afterwards;
    }
    if count > ADDRESSES {
        return Err(FieldFault::Limit);
    }
    Ok(list)
}

/// Lists one more address where so many before it are fewer than 64. How many there are then; 65 stands for any more than 64.
fn add(list: &mut AddressList, count: usize, address: Address) -> usize
    ensures few { count < address_limit → length list.old ≤ count → (result ≡ count + 1) × (list.new ≡ with_address list.old address) }
    ensures many { address_limit ≤ count → result ≡ address_limit + 1 }
{
    if count >= ADDRESSES || list.push(address).is_err() {
        return ADDRESSES + 1;
    }
    count + 1
}
