//! The law of the sums of frames.

ghost use Rattle.std.specs.Prelude.{◌≡◌};
ghost use Rattle.sound_frames.specs.FrameSizes.{SumsLaw};

/// States that the sums of a unit that is whole frames are the bytes of its last frames, by their sizes: of the last 1, 2,
/// .. 63 frames, or of all but the first.
pub fn sums_of_last_frames()
    ensures { SumsLaw }
{}
