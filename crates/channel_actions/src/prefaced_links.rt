// Links of attempts; nothing runs.
ghost use Rattle.channel_actions.specs.PrefacedLinks.Laws.{PrefacedAlong, PrefacedBegins, PrefacedStays, LinksAreJoined};

/// Attempts are only on links on which the server's SETTINGS came (RFC 9113, section 3.4): it is so of a new session, after each action that is next, and so after every
/// list of actions.
pub fn prefaced_links_stay()
    ensures begins { PrefacedBegins }
    ensures stays { PrefacedStays }
    ensures along { PrefacedAlong }
{}

/// So links are to subchannels and attempts what the clock of subchannels asks.
pub fn links_are_joined()
    ensures { LinksAreJoined }
{}
