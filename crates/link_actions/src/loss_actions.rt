// Links that are over, as actions of a session; nothing runs.
ghost use Rattle.link_actions.specs.LossActions.Laws.{BreaksAreReported, BreaksAreSame, EndsAreLosses, EndsLeaveOver, LossesAreOver, LossesAreReported, LossesGoInOrder, NoneIsReset, NothingIsRead, OverStays, TimeoutsAreOver};

/// A link is over alike in both: broken by the same bytes with the same code, wherever in a piece they stand (RFC 9113, section 5.4.1); lost; or given up
/// since the server's SETTINGS did not come. No frame is read of it any more.
pub fn links_end_alike()
    ensures breaks { BreaksAreSame }
    ensures reports { BreaksAreReported }
    ensures lost { LossesAreOver }
    ensures timeout { TimeoutsAreOver }
    ensures unread { NothingIsRead }
{}

/// The attempts on a link that is over end by that: lost where the request was sent, and else never sent, the lowest place first; and no stream is reset.
pub fn losses_are_actions()
    ensures ends { EndsAreLosses }
    ensures reports { LossesAreReported }
    ensures order { LossesGoInOrder }
    ensures resets { NoneIsReset }
{}

/// A link that is over stays so, whatever else happens.
pub fn losses_stay()
    ensures stays { OverStays }
    ensures ends { EndsLeaveOver }
{}
