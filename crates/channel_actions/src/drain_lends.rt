// What the book of a channel lends a link; nothing runs.
ghost use Rattle.channel_actions.specs.DrainLends.Laws.{LinesAreLent};

/// Where channel and session agree, nothing is to be cut off and no deadline has come, the book lends each link what the session feeds it with. That is the header list of
/// each request, with the time that is left, and the bytes that were accepted and not written.
pub fn lines_are_lent()
    ensures { LinesAreLent }
{}
