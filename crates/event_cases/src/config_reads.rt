// The config of a result is read; nothing runs.
ghost use Rattle.event_cases.specs.ConfigReads.Laws.{ReadsStirPolicies};

/// The config of a result that is read bears on no call and no link: nothing follows from it but what policies and their subchannels do ("Service Config in
/// gRPC").
pub fn reads_stir_policies()
    ensures { ReadsStirPolicies }
{}
