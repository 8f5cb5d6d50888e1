// The frames that were read on a link are read in order; nothing runs.
ghost use Rattle.call_actions.specs.ReadsInOrder.Laws.{FramesComeAfter, LinksBegin, LinksStay, NextReadsOn, ReadsBegin, ReadsStay};

/// Of each link of a session no frame lies past the bytes that were read (RFC 9113, section 4.1): it is so before anything happened, and each action keeps it
/// whose frame, if it reads one, ends no earlier. So does the one that the bytes of a link show next.
pub fn reads_stay_in_order()
    ensures begins { ReadsBegin }
    ensures stays { ReadsStay }
    ensures comes { FramesComeAfter }
{}

/// The links of a session have the numbers of their places; so the frame that a link shows next is one that keeps the order.
pub fn links_have_their_numbers()
    ensures begins { LinksBegin }
    ensures stays { LinksStay }
    ensures next { NextReadsOn }
{}
