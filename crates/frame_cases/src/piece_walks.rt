// A piece of bytes that arrives on a link, frame by frame; nothing runs.
ghost use Rattle.frame_cases.specs.PieceWalks.Laws.{KnownAlongFrames, PiecesAreHandled};

use channel_actions::going_calls::calls_of_channels_go_on;
use channel_actions::sound_buffers::buffers_stay_sound;
use channel_actions::sound_calls::calls_stay_sound;
use event_cases::few_streams::attempts_are_few;

/// A piece that arrives on a link that is not gone is its frames, one after the other, however its bytes were cut. Where each frame, and bytes that break the link, lead
/// from a point to a point, the piece is answered with Done, and channel and session agree after it. What is no whole frame yet is kept by both (RFC 9113, section 4.1).
pub fn pieces_are_handled()
    ensures { PiecesAreHandled }
{
    attempts_are_few();
}

/// What is known of channel and session between two frames stays known along one: of the channel, since a frame of a piece is a piece by itself; of the session, along its
/// actions.
pub fn known_stays_along_frames()
    ensures { KnownAlongFrames }
{
    calls_of_channels_go_on();
    calls_stay_sound();
    buffers_stay_sound();
}
