// Where a link gets the requests of its tags.
ghost use Rattle.std.specs.Prelude.{◌≡◌, ◌≢◌, ◌≤◌, ◌++◌, ℕ, [], true, length, take, IfOk, OnOk};
ghost use Rattle.h2_hpack.specs.Tables.{list_size};
ghost use Rattle.h2_link.specs.Feeds.{Line, fed};

use bytes::BytesMut;
use grpc_base::{Fields, NoMemory};

/// The requests of the tags that were placed on a link.
pub trait Feed {
    /// What it has for each tag.
    ghost lines: { Self → ℕ → Line };

    /// All else is as it was.
    ghost same: { Self → Self → Type 0 };

    /// The header list of a tag: not empty, and its sizes come to at most 16,384.
    fn head(&mut self, tag: u64) -> Result<Fields, NoMemory>
        requires held { (lines self.old tag).held ≡ true }
        ensures fields { IfOk result (λ f. f ≡ (lines self.old tag).fields) }
        ensures some { IfOk result (λ f. f ≢ []) }
        ensures size { IfOk result (λ f. list_size f ≤ 16384) }
        ensures lines { lines self.new ≡ lines self.old }
        ensures same { same self.old self.new };

    /// How many bytes of DATA are left for a tag, and whether none will be added.
    fn ready(&self, tag: u64) -> (u64, bool)
        requires held { (lines self.now tag).held ≡ true }
        ensures left { result.0 ≡ length (lines self.now tag).left }
        ensures finished { result.1 ≡ (lines self.now tag).finished };

    /// Appends the next bytes of a tag, and takes them off what is left.
    fn take(&mut self, tag: u64, len: u32, out: &mut BytesMut) -> Result<(), NoMemory>
        requires held { (lines self.old tag).held ≡ true }
        requires there { len ≤ length (lines self.old tag).left }
        ensures out { OnOk result (out.new.items ≡ out.old.items ++ take len (lines self.old tag).left) }
        ensures lines { OnOk result (lines self.new ≡ fed (lines self.old) tag len) }
        ensures same { same self.old self.new };

    ghost same_self: { (f : Self) → same f f };

    ghost same_on: { (f g h : Self) → same f g → same g h → same f h };
}
