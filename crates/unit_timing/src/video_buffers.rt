//! The multiplexing buffer MB and the elementary stream buffer EB of a video stream, by the leak method
//! (ISO/IEC 13818-1, 2.4.2.3).
ghost use Rattle.unit_timing.specs.VideoBuffers.{MultiplexingLaw, SlowLeakLaw, LeakLaw, LeakedLaw, FastLeakLaw, WholeInTimeLaw};
ghost use Rattle.unit_timing.specs.LeakMethod.{TransfersLaw, NeverFullLaw};
ghost use Rattle.unit_timing.specs.PesHeaders.{HeadersLaw};
ghost use Rattle.unit_timing.specs.VideoPlans.{VideoLaw, VideoSwitchLaw};

/// States that, if the work of each own slot at the drain Rbx finds room for its packet, MB never holds more bytes than
/// its room, whichever own slots are used.
pub fn multiplexing()
    ensures { MultiplexingLaw }
{}

/// States that it does not either if it leaks a little slower, since the headers of packets, for which the work counts,
/// never enter MB.
pub fn slow_leak()
    ensures { SlowLeakLaw }
{}

/// States that each byte is in EB at most one byte's time in the transport buffer later than it would leave a buffer
/// drained at Rbx.
pub fn leak()
    ensures { LeakLaw }
{}

/// States that the bytes of packets before a slot are in EB by that slot's begin, the peak of work, and one byte's time
/// in the transport buffer.
pub fn leaked()
    ensures { LeakedLaw }
{}

/// States that, if MB leaks at least as fast as the transport buffer is drained it never holds more than one byte.
pub fn fast_leak()
    ensures { FastLeakLaw }
{}

/// States that in a run of any length each due unit is in EB whole by its stamp.
pub fn whole_in_time()
    ensures { WholeInTimeLaw }
{}

/// States that, if EB may be full, each byte goes to it at the later of two times: as if EB never were full, and as if
/// all bytes waited for it in MB.
pub fn transfers()
    ensures { TransfersLaw }
{}

/// States that, if MB and EB together never hold more than EB's size, EB never holds a byte back.
pub fn never_full()
    ensures { NeverFullLaw }
{}

/// States for a video stream whose own slots keep the conditions, with units within its declaration, that none of TB,
/// MB and EB overflows, EB never is full, and each due unit is whole in EB by its stamp, in runs of any length.
pub fn video()
    ensures { VideoLaw }
{}

/// States the same over two plans, the first for any number of its periods.
pub fn video_switch()
    ensures { VideoSwitchLaw }
{}

/// States that, if bytes of PES packet headers leave MB together with the byte of payload after them, as the standard
/// has it, MB holds at most the bytes of one header more, and each byte of payload is in EB no later.
pub fn headers()
    ensures { HeadersLaw }
{}
