//! Moments that are not whole.
ghost use Rattle.unit_timing.specs.FinerMoments.{TransportMoments, LeftScaled};
ghost use Rattle.unit_timing.specs.FinerMoments.{MainMoments, MainWholeMoments, MainPeakMoments};
ghost use Rattle.unit_timing.specs.FinerMoments.{MultiplexingMoments, SystemTransportMoments, SystemBufferMoments};

/// States that on a scale as fine as you like the transport buffer of a stream holds what it holds at the last whole
/// moment, the main buffer no more, and at a whole moment as much: what bounds them at whole moments bounds them at
/// all moments.
pub fn streams()
    ensures transport { TransportMoments }
    ensures left { LeftScaled }
    ensures main { MainMoments }
    ensures whole { MainWholeMoments }
    ensures peak { MainPeakMoments }
{}

/// States that both buffers of a program's tables do so.
pub fn tables()
    ensures transport { SystemTransportMoments }
    ensures system { SystemBufferMoments }
{}

/// States the same for the multiplexing buffer of a video stream. Its elementary stream buffer is as a main buffer.
pub fn videos()
    ensures { MultiplexingMoments }
{}
