// Links that the environment loses; nothing runs.
ghost use Rattle.event_cases.specs.LostLinks.Laws.{LossesEndInTurn, LostLinksAreAnswered};

use channel_actions::going_calls::calls_of_channels_go_on;
use end_cases::attempt_ends::ends_stay_held;

/// The attempts of a link that is lost end one after the other, the lowest place first, where the end of one attempt is followed alike (RFC 9113, section 5.4.1; gRPC
/// over HTTP/2, "Connection failure").
pub fn losses_end_in_turn()
    ensures { LossesEndInTurn }
{
    calls_of_channels_go_on();
    ends_stay_held();
}

/// A link that the environment loses: its subchannel goes down, and its attempts end one after the other, alike in channel and session; the two agree after it, and
/// nothing follows at once (gRPC over HTTP/2, "Connection failure"; "gRPC Connectivity Semantics and API").
pub fn lost_links_are_answered()
    ensures { LostLinksAreAnswered }
{
    calls_of_channels_go_on();
    ends_stay_held();
}
