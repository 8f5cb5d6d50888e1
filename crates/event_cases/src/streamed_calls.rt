// An attempt that gets its stream leaves the calls; nothing runs.
ghost use Rattle.event_cases.specs.StreamedCalls.Laws.{CallsAreServed, DuesStay, OrdersStay, TurnsStay};

/// Where attempts have streams, each call of the channel agrees with the session as before, with the rows and links that there are then and with the buffer that is
/// left. What the session keeps of it in order is so still, and its next attempt is due when it was.
pub fn streams_leave_calls()
    ensures served { CallsAreServed }
    ensures order { OrdersStay }
    ensures turn { TurnsStay }
    ensures due { DuesStay }
{}
