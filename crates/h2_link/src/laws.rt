// What holds of every link; nothing runs.
ghost use Rattle.std.specs.Prelude.{◌≡◌, ◌≢◌, ◌++◌, ℕ, List, Some, length};
ghost use Rattle.h2_frame.specs.Readings.{Partial, reading_of};
ghost use Rattle.h2_link.specs.Drains.{Outgoing, Sends, sender};
ghost use Rattle.h2_link.specs.Feeds.{Line};
ghost use Rattle.h2_link.specs.Received.{handled, received_after};
ghost use Rattle.h2_link.specs.Laws.{KeepsReceived, KeepsWindows};
ghost use Rattle.h2_link.specs.declared.live.LiveStream.{LiveStream};
ghost use Rattle.h2_link.specs.declared.send.Share.{Share};
ghost use Rattle.h2_link.specs.Wire.{Wire, Seen};

/// What a link receives does not depend on how its bytes are cut: what a piece shows, it shows whatever follows it, and a
/// piece that shows nothing goes into what the next one shows.
pub fn pieces_join()
    ensures stays { (l : Seen) (prefix more : List ℕ) → reading_of (l.rest ++ prefix) ≢ Partial → handled l (prefix ++ more) ≡ handled l prefix }
    ensures goes_on { (l : Seen) (prefix more : List ℕ) → reading_of (l.rest ++ prefix) ≡ Partial → handled l (prefix ++ more) ≡ received_after (length prefix) (handled (handled l prefix).link more) }
{}

/// Sending leaves all that was received from the peer as it was.
pub fn sending_keeps_what_was_received()
    ensures { (w : Wire) (g : ℕ → Line) (frames : List Outgoing) (w2 : Wire) (g2 : ℕ → Line) → Sends w g frames w2 g2 → KeepsReceived w w2 }
{}

/// DATA is sent within a frame and within both windows (RFC 9113, section 6.9.1).
pub fn data_keeps_both_windows()
    ensures { (window initial : ℕ) (g : ℕ → Line) (place : ℕ) (streams : List LiveStream) (x : Share) → sender window initial g place streams ≡ Some x → KeepsWindows window initial x.stream x.len }
{}
