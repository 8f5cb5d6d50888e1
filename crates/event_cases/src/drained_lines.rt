// What a drain takes; nothing runs.
ghost use Rattle.event_cases.specs.DrainedLines.Laws.{DrainsLeaveLines};

/// A drain of a link takes nothing of the messages of attempts that do not go on there (RFC 9113, section 5.1.1).
pub fn drains_leave_lines()
    ensures { DrainsLeaveLines }
{}
