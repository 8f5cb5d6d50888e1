// Links of subchannels that are shut; nothing runs.
ghost use Rattle.event_cases.specs.LeftLinks.Laws.{LeftLinksAreStamped};

/// Where a step of the net shuts subchannels, the ledger stamps the links that are gone by it as the session does ("gRPC Connectivity Semantics and API").
pub fn left_links_are_stamped()
    ensures { LeftLinksAreStamped }
{}
