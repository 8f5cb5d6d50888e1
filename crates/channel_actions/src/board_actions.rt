// What actions of subchannels and policies leave; nothing runs.
ghost use Rattle.channel_actions.specs.BoardActions.Laws.{BoardsLeaveRest};

/// Actions of subchannels and policies leave calls, attempts, configs and pick requests as they are ("gRPC Connectivity Semantics and API"; "Load Balancing in
/// gRPC").
pub fn boards_leave_rest()
    ensures { BoardsLeaveRest }
{}
