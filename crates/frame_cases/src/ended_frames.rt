// Frames that end an attempt; nothing runs.
ghost use Rattle.frame_cases.specs.EndedFrames.Laws.{EndedFramesAreHandled};

use channel_actions::sound_buffers::buffers_stay_sound;
use end_cases::attempt_ends::runs_rise;

/// A frame that ends an attempt is handled, where the end of one attempt is followed alike: messages may come before, the attempt ends, and then the streams are reset that
/// this brings (gRPC over HTTP/2, "Responses" and "Errors"; RFC 9113, sections 5.4.2, 6.4 and 8.1).
pub fn ended_frames_are_handled()
    ensures { EndedFramesAreHandled }
{
    buffers_stay_sound();
    runs_rise();
}
