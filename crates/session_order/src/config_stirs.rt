// What follows after a call got its config, and what does not; nothing runs.
ghost use Rattle.session_order.specs.ConfigStirs.Laws.{ConfigsStir};

/// A call without an attempt that gets its config stirs the line alone by which it ends, where a message of its request is too long (gRPC, "Service Config in
/// gRPC").
pub fn configs_stir()
    ensures { ConfigsStir }
{}
