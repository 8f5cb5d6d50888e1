// What holds of all values of bytes.
ghost use Rattle.std.specs.Prelude.{◌≡◌, List, ℕ, Some};
ghost use Rattle.base64.specs.GeneralPurpose.{IsBytes};
ghost use Rattle.grpc_meta.specs.Base64.{SpellsBytes, bytes_of_base64};

/// A law for proofs: a text is read as these bytes exactly where it is their base64, without padding or with all of it
/// (RFC 4648, sections 3.2, 3.5 and 4). The call does nothing.
pub fn base64_is_read_exactly()
    ensures read { (text : List ℕ) → (bytes : List ℕ) → IsBytes bytes → SpellsBytes text bytes → bytes_of_base64 text ≡ Some bytes }
    ensures only { (text : List ℕ) → (bytes : List ℕ) → IsBytes text → bytes_of_base64 text ≡ Some bytes → SpellsBytes text bytes }
{}
