// The frame of links for attempts that are cut off; nothing runs.
ghost use Rattle.call_cases.specs.LinkEnds.Laws.{CallsEndOffLinks, CutsAreReset};

/// The end of a call leaves each link in agreement with the session. Where an action cuts off several attempts, on whatever links, each link agrees again once they
/// have ended and their streams are reset, by link and stream (RFC 9113, section 6.4; gRPC over HTTP/2, "Errors").
pub fn links_end()
    ensures calls { CallsEndOffLinks }
    ensures cuts { CutsAreReset }
{}
