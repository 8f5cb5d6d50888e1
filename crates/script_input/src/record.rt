// The lines of a report, as far as a script has them.
ghost use Rattle.std.specs.Prelude.{◌≡◌, ◌↔◌, IsTrue};
ghost use Rattle.script_input.specs.Scripts.{IsRecord, before_sign, begins, is_record, read_part};

use crate::form::Form;

/// Whether the line of a number stands after the entries of a report: a row, the end, or a fault.
pub fn is_record_at(form: Form, number: u64, text: &[u8]) -> bool
    ensures { IsTrue result ↔ IsRecord form number text.now }
{
    match form {
        Form::Script => false,
        Form::Report => number != 1 && is_record(text),
    }
}

/// Whether a line begins as those after the entries of a report do.
fn is_record(text: &[u8]) -> bool
    ensures { result ≡ is_record text.now }
{
    begins(text, b"row ") || begins(text, b"end ") || begins(text, b"fault ")
}

/// Whether a text begins with another.
#[tactic(auto, unfolding(crate::specs::Scripts::begins))]
fn begins(text: &[u8], word: &[u8]) -> bool
    ensures { result ≡ begins text.now word.now }
{
    text.starts_with(word)
}

/// What is read of the line of a number.
pub fn part_of(form: Form, number: u64, text: &[u8]) -> &[u8]
    ensures { result.now ≡ read_part form number text.now }
{
    match form {
        Form::Script => text,
        Form::Report => {
            if number == 1 {
                return text;
            }
            before_sign(text)
        }
    }
}

/// What stands before the first ` = `, or all.
#[tactic(auto, using(crate::proofs::RecordLaws::sign_found, crate::proofs::RecordLaws::sign_passed, crate::proofs::RecordLaws::sign_none))]
fn before_sign(text: &[u8]) -> &[u8]
    ensures { result.now ≡ before_sign text.now }
{
    for place in 0..text.len() {
        if begins(&text[place..], b" = ") {
            return &text[..place];
        }
    }
    text
}
