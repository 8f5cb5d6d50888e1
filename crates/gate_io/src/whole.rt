// A piece written whole, by as many writes as the sink needs.
ghost use Rattle.std.specs.Prelude.{◌≡◌, ◌≤◌, Bool, true, false, MatchBool, List, ℕ};
ghost use Rattle.gate_io.specs.Outside.{Appends, AppendsPrefix, one_more};

use crate::{Sink, WriteAnswer};

/// Writes a piece whole, and says whether all of it was taken.
/// It is not exactly where a write of this call failed: that write is the only one that failed, and what was
/// taken before it is a prefix of the piece.
pub fn write_whole<K: Sink>(sink: &mut K, piece: &[u8]) -> bool
    ensures whole { result ≡ true → Appends (K.taken sink.old) (K.taken sink.new) piece.now }
    ensures part { result ≡ false → AppendsPrefix (K.taken sink.old) (K.taken sink.new) piece.now }
    ensures steady { result ≡ true → K.faults sink.new ≡ K.faults sink.old }
    ensures once { result ≡ false → K.faults sink.new ≡ one_more (K.faults sink.old) }
    ensures count { K.faults sink.old ≤ K.faults sink.new }
{
    let mut at = 0;
    while at < piece.len() {
        match sink.write(&piece[at..]) {
            WriteAnswer::Took(count) => at += count,
            WriteAnswer::Failed => return false,
        }
    }
    true
}
