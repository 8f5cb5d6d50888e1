// What calls hold of their messages; nothing runs.
ghost use Rattle.channel_actions.specs.SoundBuffers.Laws.{AnswersHoldSoundly, BuffersAreSoundIn, DeadlinesHoldSoundly, EachHoldsSoundly, NewBuffersAreSound, SettlingsHoldSoundly, SoundFeedsHold, StepsHoldSoundly};

use call_core::{calls_are_kept, calls_go_on, takes_leave_rows};

/// Of a channel no row of a call took more than the call holds, and a call that is committed holds its messages for that row alone (gRFC A6, "Memory Management
/// (Buffering)"). It is so of a new channel, and each step keeps it, and each part of a step.
pub fn buffers_stay_sound()
    ensures begins { NewBuffersAreSound }
    ensures steps { StepsHoldSoundly }
    ensures deadlines { DeadlinesHoldSoundly }
    ensures answers { AnswersHoldSoundly }
    ensures settlings { SettlingsHoldSoundly }
    ensures each { EachHoldsSoundly }
{
    calls_are_kept();
    calls_go_on();
    takes_leave_rows();
}

/// So the buffer of an open call is sound beside any session that it agrees with, and holds what the session has after what a drain takes of it.
pub fn sound_buffers_hold()
    ensures sound { BuffersAreSoundIn }
    ensures feeds { SoundFeedsHold }
{}
