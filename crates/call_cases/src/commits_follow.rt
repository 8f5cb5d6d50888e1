// What follows the commitment of a call; nothing runs.
ghost use Rattle.call_cases.specs.CommitsFollow.Laws.{CommitsFollow, OthersAreCutOff};

/// Where a call is committed, its other attempts are cut off and their streams are reset, each of these the next action; and nothing else follows from it (gRFC
/// A6, "When Retries are Valid").
pub fn commits_follow_in_order()
    ensures cuts { OthersAreCutOff }
    ensures follow { CommitsFollow }
{}
