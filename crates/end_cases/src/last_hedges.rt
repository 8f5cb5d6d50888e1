// A hedge that is withheld where no other attempt of its call goes on; nothing runs.
ghost use Rattle.attempt_cases.specs.MakingSteps.Laws.{LastIsWithheld};

/// Where none goes on, the call is committed to the attempt whose end counted last, and ends by it ("Throttling Retry Attempts and Hedged RPCs").
pub fn last_is_withheld()
    ensures { LastIsWithheld }
{}
