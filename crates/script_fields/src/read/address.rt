// An address with its port, as `a.b.c.d:port`.
ghost use Rattle.std.specs.Prelude.{◌≡◌, IfSome, IfNone};
ghost use Rattle.grpc_base.specs.declared.address.Address as address;
ghost use Rattle.script_fields.specs.Spelling.{address_text};
ghost use Rattle.script_fields.specs.Values.{IsAddress};

use crate::read::number::{number_before, number_within};
use grpc_base::Address;

/// The address whose one spelling this is.
pub fn address_of(text: &[u8]) -> Option<Address>
    ensures some { IfSome result (λ a. IsAddress a × (text.now ≡ address_text a)) }
    ensures none { IfNone result ((a : address.Address) → IsAddress a → text.now ≡ address_text a → ⊥) }
{
    let (first, rest) = number_before(text, b'.', 255)?;
    let (second, rest) = number_before(rest, b'.', 255)?;
    let (third, rest) = number_before(rest, b'.', 255)?;
    let (fourth, port) = number_before(rest, b':', 255)?;
    let port = number_within(port, 65535)?;
    if port == 0 {
        return None;
    }
    let ip = ((first * 256 + second) * 256 + third) * 256 + fourth;
    Some(Address {
        ip: ip as u32,
        port: port as u16,
    })
}
