// Huffman text, read four bits at a time.
ghost use Rattle.std.specs.Prelude.{◌≡◌, ◌<◌, ◌*◌, ◌+◌, ◌++◌, None, Some, Err, IfOk, option_map, if◌then◌else◌};
ghost use Rattle.h2_hpack.specs.Huffman.{symbols_of};
ghost use Rattle.h2_hpack.specs.Walk.{halves, next_state, step, symbol_at, walk};

use crate::fault::HpackFault;
use crate::states::{NEXT_STATE, SYMBOL};
use grpc_base::NoMemory;

/// The last state that only padding leads to: the states up to it are reached by as many one bits.
const MOST_PADDING: u8 = 7;

/// In place of a symbol: none ends within the four bits.
const NO_SYMBOL: u16 = 256;

/// Appends the symbols of Huffman text; false exactly where the bytes are none.
pub(crate) fn decode(symbols: &mut Vec<u8>, bytes: &[u8]) -> Result<bool, NoMemory>
    ensures { IfOk result (λ is. (if is then Some symbols.new.items else None) ≡ option_map (λ text. symbols.old.items ++ text) (symbols_of bytes.now)) }
{
    symbols.reserve(bytes.len().saturating_mul(8) / 5)?;
    let mut state = 0;
    for byte in bytes {
        match feed(symbols, state, *byte) {
            Ok(next) => state = next,
            Err(HpackFault::BadHuffman) => return Ok(false),
            Err(_) => return Err(NoMemory),
        }
    }
    let most = MOST_PADDING;
    Ok(state <= most)
}

/// Walks on by the eight bits of a byte.
fn feed(symbols: &mut Vec<u8>, state: u8, byte: u8) -> Result<u8, HpackFault>
    ensures on { IfOk result (λ n. walk (halves byte) (symbols.old.items, state) ≡ Some (symbols.new.items, n)) }
    ensures bad { result ≡ Err HpackFault.BadHuffman → walk (halves byte) (symbols.old.items, state) ≡ None }
{
    let state = feed_half(symbols, state, byte / 16 % 16)?;
    feed_half(symbols, state, byte % 16)
}

/// Walks on by four bits.
fn feed_half(symbols: &mut Vec<u8>, state: u8, four: u8) -> Result<u8, HpackFault>
    requires { four < 16 }
    ensures on { IfOk result (λ n. step four (symbols.old.items, state) ≡ Some (symbols.new.items, n)) }
    ensures bad { result ≡ Err HpackFault.BadHuffman → step four (symbols.old.items, state) ≡ None }
{
    let symbol = symbol_at(state, four);
    if symbol < NO_SYMBOL {
        symbols.push(symbol as u8)?;
    } else if symbol > NO_SYMBOL {
        return Err(HpackFault::BadHuffman);
    }
    Ok(next_state(state, four))
}

/// The symbol that ends within four bits, 256 for none, or above where they are no Huffman text.
#[tactic(auto, unfolding(crate::specs::Walk::symbol_at))]
fn symbol_at(state: u8, four: u8) -> u16
    requires { four < 16 }
    ensures { result ≡ symbol_at state four }
{
    SYMBOL[state as usize * 16 + four as usize]
}

/// The state after four bits.
#[tactic(auto, unfolding(crate::specs::Walk::next_state))]
fn next_state(state: u8, four: u8) -> u8
    requires { four < 16 }
    ensures { result ≡ next_state state four }
{
    NEXT_STATE[state as usize * 16 + four as usize]
}
