// The fields of a line, one after the other.
ghost use Rattle.std.specs.Prelude.{◌≡◌, ◌≢◌, ◌<◌, ◌≤◌, ◌↔◌, [], ◌∷◌, length, IfSome, IfNone, IsTrue};
ghost use Rattle.std.specs.Option.{option_copied};
ghost use Rattle.script_fields.specs.Spelling.{fields};
ghost use Rattle.script_lines.specs.Lines.{fields_after};

use grpc_base::first_piece;

/// The first field, and what stands after its space, if there is one.
pub fn first_field(text: &[u8]) -> (&[u8], Option<&[u8]>)
    ensures { fields text.now ≡ result.0.now ∷ fields_after (option_copied result.1) }
{
    first_piece(text, b' ')
}

/// The next field of a rest, and what stands after it.
pub fn next_field(rest: Option<&[u8]>) -> Option<(&[u8], Option<&[u8]>)>
    ensures some { IfSome result (λ p. fields_after (option_copied rest.entry) ≡ p.0.now ∷ fields_after (option_copied p.1)) }
    ensures none { IfNone result (fields_after (option_copied rest.entry) ≡ []) }
{
    let text = rest?;
    Some(first_field(text))
}

/// The one field of a rest.
pub fn one_field(rest: Option<&[u8]>) -> Option<&[u8]>
    ensures some { IfSome result (λ a. fields_after (option_copied rest.entry) ≡ a.now ∷ []) }
    ensures none { IfNone result (length (fields_after (option_copied rest.entry)) ≢ 1) }
{
    let (a, rest) = next_field(rest)?;
    match rest {
        Some(_) => None,
        None => Some(a),
    }
}

/// The two fields of a rest.
pub fn two_fields(rest: Option<&[u8]>) -> Option<(&[u8], &[u8])>
    ensures some { IfSome result (λ p. fields_after (option_copied rest.entry) ≡ p.0.now ∷ p.1.now ∷ []) }
    ensures none { IfNone result (length (fields_after (option_copied rest.entry)) ≢ 2) }
{
    let (a, rest) = next_field(rest)?;
    let b = one_field(rest)?;
    Some((a, b))
}

/// The three fields of a rest.
pub fn three_fields(rest: Option<&[u8]>) -> Option<(&[u8], &[u8], &[u8])>
    ensures some { IfSome result (λ p. fields_after (option_copied rest.entry) ≡ p.0.now ∷ p.1.now ∷ p.2.now ∷ []) }
    ensures none { IfNone result (length (fields_after (option_copied rest.entry)) ≢ 3) }
{
    let (a, rest) = next_field(rest)?;
    let (b, c) = two_fields(rest)?;
    Some((a, b, c))
}

/// The four fields of a rest.
pub fn four_fields(rest: Option<&[u8]>) -> Option<(&[u8], &[u8], &[u8], &[u8])>
    ensures some { IfSome result (λ p. fields_after (option_copied rest.entry) ≡ p.0.now ∷ p.1.now ∷ p.2.now ∷ p.3.now ∷ []) }
    ensures none { IfNone result (length (fields_after (option_copied rest.entry)) ≢ 4) }
{
    let (a, rest) = next_field(rest)?;
    let (b, rest) = next_field(rest)?;
    let (c, d) = two_fields(rest)?;
    Some((a, b, c, d))
}

/// The first five fields of a rest, and what stands after them.
pub fn five_fields(
    rest: Option<&[u8]>,
) -> Option<(&[u8], &[u8], &[u8], &[u8], &[u8], Option<&[u8]>)>
    ensures some { IfSome result (λ p. fields_after (option_copied rest.entry) ≡ p.0.now ∷ p.1.now ∷ p.2.now ∷ p.3.now ∷ p.4.now ∷ fields_after (option_copied p.5)) }
    ensures none { IfNone result (length (fields_after (option_copied rest.entry)) < 5) }
{
    let (a, rest) = next_field(rest)?;
    let (b, rest) = next_field(rest)?;
    let (c, rest) = next_field(rest)?;
    let (d, rest) = next_field(rest)?;
    let (e, rest) = next_field(rest)?;
    Some((a, b, c, d, e, rest))
}

/// Whether a rest has at most so many fields.
pub fn are_at_most(rest: Option<&[u8]>, most: u32) -> bool
    ensures { IsTrue result ↔ (length (fields_after (option_copied rest.entry)) ≤ most) }
{
    match next_field(rest) {
        None => true,
        Some((_, afterwards)) => most > 0 && are_at_most(afterwards, most - 1),
    }
}
