// Texts parted at a separator.
ghost use Rattle.std.specs.Prelude.{◌≡◌, ◌≢◌, ◌<◌, ◌++◌, ◌∷◌, length, IfSome, IfNone, All};
ghost use Rattle.std.specs.Option.{option_copied};
ghost use Rattle.grpc_base.specs.Pieces.{pieces, pieces_of_rest};

/// What stands before and after the first separator; None exactly where there is none.
pub fn split_at_byte(text: &[u8], separator: u8) -> Option<(&[u8], &[u8])>
    ensures some { IfSome result (λ p. (text.now ≡ p.0.now ++ separator ∷ p.1.now) × All (λ b. b ≢ separator) p.0.now) }
    ensures none { IfNone result (All (λ b. b ≢ separator) text.now) }
{
    let place = text.iter().position(|b| *b == separator)?;
    Some((&text[..place], &text[place + 1..]))
}

/// The first piece of a text, and what stands after its separator, if there is one.
pub fn first_piece(text: &[u8], separator: u8) -> (&[u8], Option<&[u8]>)
    ensures pieces { pieces separator text.now ≡ result.0.now ∷ pieces_of_rest separator (option_copied result.1) }
    ensures shorter { IfSome result.1 (λ rest. length rest.now < length text.now) }
{
    match split_at_byte(text, separator) {
        Some((piece, rest)) => (piece, Some(rest)),
        None => (text, None),
    }
}
