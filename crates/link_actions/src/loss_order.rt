// The order in which the attempts on a link end that is over, as actions of a session; nothing runs.
ghost use Rattle.link_actions.specs.LossOrder.Laws.{EndsKeepQuiet};

/// Where nothing else is about to end an attempt, nothing else is once one has ended: so the next on the link that is over is again that of the lowest place.
pub fn losses_stay_in_order()
    ensures { EndsKeepQuiet }
{}
