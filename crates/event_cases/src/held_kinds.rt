// Of which kinds configs are that were held; nothing runs.
ghost use Rattle.event_cases.specs.HeldKinds.Laws.{ConfigsAreThrottled, HeldKindsAreThere, HeldPlansAreShort};

/// In every session each config that was held is of a kind that the channel was made with, where it was made with pick_first; and it has a run exactly where it has
/// throttle settings ("Service Config in gRPC": loadBalancingConfig; gRFC A6, "Throttling Retry Attempts and Hedged RPCs").
pub fn held_kinds_are_there()
    ensures kinds { HeldKindsAreThere }
    ensures runs { ConfigsAreThrottled }
{}

/// In every session the plan of a call allows 5 attempts at most: a greater maxAttempts counts as 5 (gRFC A6, "Maximum Number of Retries").
pub fn held_plans_are_short()
    ensures { HeldPlansAreShort }
{}
