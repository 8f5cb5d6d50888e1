// A drain of a link is a list of actions of a session; nothing runs.
ghost use Rattle.channel_actions.specs.DrainWrites.Laws.{DrainsAreActions};

/// Each frame that a drain writes is the next action of the session, nothing else comes between two, and at its end no further frame fits; link and session agree
/// then.
pub fn drains_are_actions()
    ensures { DrainsAreActions }
{}
