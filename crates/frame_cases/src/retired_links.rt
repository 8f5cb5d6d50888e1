// GOAWAY; nothing runs.
ghost use Rattle.frame_cases.specs.RetiredLinks.Laws.{RetiredLinksAreHandled};

use call_core::{calls_are_kept, calls_go_on};
use channel_actions::sound_buffers::buffers_stay_sound;
use end_cases::attempt_ends::{ends_stay_held, runs_rise};

/// GOAWAY is handled, where the end of one attempt is followed alike. The link takes no further attempt in both, its subchannel goes down, and the attempts end that it leaves
/// out or that wait for a stream, the lowest place first. Then their streams are reset, and those of the attempts that this cuts off (RFC 9113, section 6.8; gRPC over HTTP/2,
/// "Connection Management").
pub fn retired_links_are_handled()
    ensures { RetiredLinksAreHandled }
{
    buffers_stay_sound();
    calls_are_kept();
    calls_go_on();
    ends_stay_held();
    runs_rise();
}
