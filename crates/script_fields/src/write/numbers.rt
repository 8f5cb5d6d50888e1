// Words and numbers.
ghost use Rattle.std.specs.Prelude.{◌≡◌, ◌++◌, ◌∷◌, decimal, OnOk};
ghost use Rattle.script_fields.specs.Spelling.{number_or_dash};

use grpc_base::{NoMemory, append_decimal};

/// Appends a word after a space.
pub fn append_word(out: &mut Vec<u8>, word: &[u8]) -> Result<(), NoMemory>
    ensures { OnOk result (out.new.items ≡ out.old.items ++ 32 ∷ word.now) }
{
    out.push(b' ')?;
    out.extend_from_slice(word)?;
    Ok(())
}

/// Appends a number after a space.
pub fn append_number(out: &mut Vec<u8>, number: u64) -> Result<(), NoMemory>
    ensures { OnOk result (out.new.items ≡ out.old.items ++ 32 ∷ decimal number) }
{
    out.push(b' ')?;
    append_decimal(out, number)
}

/// Appends a number after a space, or a dash.
pub fn append_number_or_dash(out: &mut Vec<u8>, number: Option<u64>) -> Result<(), NoMemory>
    ensures { OnOk result (out.new.items ≡ out.old.items ++ 32 ∷ number_or_dash number) }
{
    match number {
        Some(number) => append_number(out, number),
        None => append_word(out, b"-"),
    }
}
