// What frames that are written leave; nothing runs.
ghost use Rattle.event_cases.specs.WrittenResponses.Laws.{UnreceivedAreSilent, WritesLeaveItems};

/// What is written on a link leaves what came for applications (RFC 9113, section 5.1.1), where nothing came on streams that are still to be opened; which is so of the links
/// of a channel that agree with a session.
pub fn written_frames_leave_responses()
    ensures silent { UnreceivedAreSilent }
    ensures items { WritesLeaveItems }
{}
