// Whether a call waits for ready.
ghost use Rattle.std.specs.Prelude.{◌≡◌, ◌≢◌, Bool, Option, IfSome, IfNone};
ghost use Rattle.script_fields.specs.Spelling.{wait_text};

/// Whether a call waits for ready, where the text says so.
pub fn wait_of(text: &[u8]) -> Option<Option<bool>>
    ensures some { IfSome result (λ w. text.now ≡ wait_text w) }
    ensures none { IfNone result ((w : Option Bool) → text.now ≢ wait_text w) }
{
    match text {
        b"-" => Some(None),
        b"yes" => Some(Some(true)),
        b"no" => Some(Some(false)),
        _ => None,
    }
}
