// What an action of one call leaves of what every other one holds; nothing runs.
ghost use Rattle.call_actions.specs.TakesApart.Laws.{DeadlinesStay, OthersAreDue, OthersAreReceived, OthersAreServed, ServedTogether};

/// What passes on a link is of one stream, and so of one call at most (RFC 9113, section 5): what came of the responses to every other call, and what was
/// written of its messages, is as before.
pub fn others_are_received()
    ensures { OthersAreReceived }
{}

/// Session and channel hold the same for every other call as before; it is due when it was, and its deadline is the same.
pub fn others_are_served()
    ensures served { OthersAreServed }
    ensures together { ServedTogether }
    ensures due { OthersAreDue }
    ensures deadline { DeadlinesStay }
{}
