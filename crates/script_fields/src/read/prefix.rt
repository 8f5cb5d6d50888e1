// What stands after a beginning.
ghost use Rattle.std.specs.Prelude.{◌≡◌, ◌≢◌, ◌++◌, ℕ, List, IfSome, IfNone};

/// What stands after this beginning.
pub fn afterwards<'a>(text: &'a [u8], head: &[u8]) -> Option<&'a [u8]>
    ensures some { IfSome result (λ r. text.now ≡ head.now ++ r.now) }
    ensures none { IfNone result ((rest : List ℕ) → text.now ≢ head.now ++ rest) }
{
    text.strip_prefix(head)
}
