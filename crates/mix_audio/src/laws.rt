//! What the definition of a block promises: each function here is a law, and its body is empty.
ghost use Rattle.mix_audio.specs.Laws.{FramesAreHeard, NobodyIsSilence, TracklessIsUnheard};

/// Each frame of each track has what the track says at its place, and the left and the right hear
/// the same.
pub fn frames_are_heard()
    ensures heard { FramesAreHeard }
{}

/// Where nobody is heard, each sample is 0.
pub fn nobody_is_silence()
    ensures silence { NobodyIsSilence }
{}

/// A voice that is in no track changes nothing.
pub fn trackless_voices_are_unheard()
    ensures unheard { TracklessIsUnheard }
{}
