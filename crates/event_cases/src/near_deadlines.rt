// How far ahead deadlines are; nothing runs.
ghost use Rattle.event_cases.specs.NearDeadlines.Laws.{DeadlinesAreNear, KnownDeadlinesAreNear};

/// No deadline is further ahead than the longest duration (gRPC, "Core concepts": Deadlines/Timeouts).
pub fn deadlines_are_near()
    ensures posted { DeadlinesAreNear }
    ensures known { KnownDeadlinesAreNear }
{}
