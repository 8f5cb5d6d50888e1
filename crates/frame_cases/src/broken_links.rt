// Bytes that break a link; nothing runs.
ghost use Rattle.frame_cases.specs.BrokenLinks.Laws.{BrokenLinksAreHandled};

use channel_actions::going_calls::calls_of_channels_go_on;
use channel_actions::sound_buffers::buffers_stay_sound;
use end_cases::attempt_ends::{ends_stay_held, runs_rise};

/// Bytes that break a link are handled, where the end of one attempt is followed alike: the link is over in both, its subchannel goes down, and its attempts end one after
/// the other, the lowest place first. Then the streams are reset that this brings on other links (RFC 9113, section 5.4.1; gRPC over HTTP/2, "Connection failure").
pub fn broken_links_are_handled()
    ensures { BrokenLinksAreHandled }
{
    buffers_stay_sound();
    calls_of_channels_go_on();
    ends_stay_held();
    runs_rise();
}
