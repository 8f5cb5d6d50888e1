// What an action leaves of a net; nothing runs.
ghost use Rattle.net_actions.specs.NetFrames.Laws.{NetIsLeft, NetStays, NetStaysAlong, SameNetsAgree};

/// What happens to calls, attempts and frames leaves subchannels and policies as they are ("gRPC Connectivity Semantics and API"; "Load Balancing in
/// gRPC"): a net that agreed still does.
pub fn nets_stay()
    ensures left { NetIsLeft }
    ensures same { SameNetsAgree }
    ensures one { NetStays }
    ensures along { NetStaysAlong }
{}
