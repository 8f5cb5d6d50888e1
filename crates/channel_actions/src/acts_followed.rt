// What the channel does where one of its calls ends; nothing runs.
ghost use Rattle.channel_actions.specs.ActsFollowed.Laws.{EndsAreFollowed};

/// Where a call ends, its attempts leave links, the outstanding pairs and the queue, and its timers go; every other call, and the net, are as before.
pub fn ends_are_followed()
    ensures { EndsAreFollowed }
{}
