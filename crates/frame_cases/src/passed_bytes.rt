// What passes on one link; nothing runs.
ghost use Rattle.frame_cases.specs.PassedBytes.Laws.{PassedBytesKeep};

/// What comes or passes on one link, and brings nothing for an application, leaves channel and session in agreement, where the two agree about that link, its stamp in
/// the ledger among it.
pub fn passed_bytes_keep()
    ensures { PassedBytesKeep }
{}
