// What follows at once leaves what passed on links; nothing runs.
ghost use Rattle.event_cases.specs.PassedAtOnce.Laws.{ActionsLeavePassed, LossesLeavePassed};

/// An action that may follow at once leaves all that was read and written on links, and the streams of attempts; and so do all actions by which the loss of a link is
/// followed (RFC 9113, section 5.4.1).
pub fn losses_leave_passed()
    ensures actions { ActionsLeavePassed }
    ensures losses { LossesLeavePassed }
{}
