//! The size and the time of a frame of sound.

ghost use Rattle.std.specs.Prelude.{◌≡◌};
ghost use Rattle.sound_frames.specs.FrameHeaders as spec;

/// The size and the time of a frame of sound, by its header.
#[derive(Clone, Copy, PartialEq, Eq)]
pub(crate) struct FrameHeader {
    /// The bytes of the frame, header and all.
    pub size: u32,
    /// The time of the frame in units of 90 kHz, rounded up; 0 if an earlier frame says it.
    pub time: u64,
}

// Returns a frame of these bytes and samples, at this number of samples a second.
#[tactic(auto, unfolding(crate::specs::FrameHeaders::sounding))]
pub(crate) fn sounding(size: u32, samples: u32, frequency: u32) -> Option<FrameHeader>
    ensures { result ≡ spec.sounding size samples frequency }
{
    if size == 0 || frequency == 0 {
        return None;
    }
    let time = (u64::from(samples) * 90_000).div_ceil(u64::from(frequency));
    Some(FrameHeader { size, time })
}
