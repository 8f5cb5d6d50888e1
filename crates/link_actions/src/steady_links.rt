// What leaves links, as actions of a session; nothing runs.
ghost use Rattle.link_actions.specs.SteadyLinks.Laws.{AttemptsLeaveLinks, CallEndsLeaveLinks, CommitmentsLeaveLinks, EntriesLeaveLinks, FinishesFeed, LinksAreLeft, LinksAreLeftBut, MessagesFeed, MomentsFeed, PlacingsKeep};

/// A link agrees with any session that it cannot distinguish from one with which it agrees: what passed on it and what it owes is the same, and its attempts have the
/// same places and streams, and are fed right.
pub fn links_are_left()
    ensures streams { LinksAreLeft }
    ensures but { LinksAreLeftBut }
{}

/// A commitment, the end of a call, and an attempt that is made leave every link.
pub fn calls_leave_links()
    ensures commitments { CommitmentsLeaveLinks }
    ensures ends { CallEndsLeaveLinks }
    ensures attempts { AttemptsLeaveLinks }
{}

/// An attempt that is placed on a link waits there for a stream, by its place.
pub fn placings_keep()
    ensures { PlacingsKeep }
{}

/// A message that is accepted, a request that is finished and the moment of an entry change what attempts are fed with, and link and session agree again; what
/// else is noted of an entry leaves every link.
pub fn calls_feed_links()
    ensures entries { EntriesLeaveLinks }
    ensures messages { MessagesFeed }
    ensures finishes { FinishesFeed }
    ensures moments { MomentsFeed }
{}
