// What holds of a rack over whole runs.
ghost use Rattle.policy_rack.specs.Runs.{RackKeeps, LiveKindsDiffer, NotingAgainChangesNothing};

/// The laws of a rack, whatever calls are made of it and in whichever order: a pending generation stands only beside
/// a current one, is of another policy and was made later. A policy that no live generation uses has the empty view,
/// none that failed and no turn. Of policies of different kinds, the two live generations are never of one kind; and noting the same
/// state of a subchannel again changes nothing.
pub fn laws_of_runs()
    ensures kept { RackKeeps }
    ensures kinds { LiveKindsDiffer }
    ensures noting { NotingAgainChangesNothing }
{}
