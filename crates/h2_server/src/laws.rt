// What holds of every link; nothing runs.
ghost use Rattle.std.specs.Prelude.{◌≡◌, ◌≢◌, ◌++◌, ℕ, Bool, List, None, Some, length};
ghost use Rattle.h2_server.specs.Received.{prefix_of, handled, received_after};
ghost use Rattle.h2_server.specs.Laws.{KeepsWindows};
ghost use Rattle.h2_server.specs.Sends.{share_at};
ghost use Rattle.h2_server.specs.declared.live.LiveStream.{LiveStream};
ghost use Rattle.h2_server.specs.declared.share.Share.{Share};
ghost use Rattle.h2_server.specs.Wire.{Wire, Seen};

/// What a link receives does not depend on how its bytes are cut: what a piece shows, it shows whatever follows it, and a
/// piece that shows nothing goes into what the next one shows.
pub fn pieces_join()
    ensures stays { (l : Seen) (prefix more : List ℕ) → prefix_of l.prefaced l.wire (l.rest ++ prefix) ≢ None → handled l (prefix ++ more) ≡ handled l prefix }
    ensures goes_on { (l : Seen) (prefix more : List ℕ) → prefix_of l.prefaced l.wire (l.rest ++ prefix) ≡ None → handled l (prefix ++ more) ≡ received_after (length prefix) (handled (handled l prefix).link more) }
{}

/// DATA is sent within a frame and within both windows (RFC 9113, section 6.9.1).
pub fn data_keeps_both_windows()
    ensures { (w : Wire) (s : LiveStream) (place left : ℕ) (finished : Bool) (x : Share) → share_at w left finished (Some (place, s)) ≡ Some x → KeepsWindows w s x.len }
{}
