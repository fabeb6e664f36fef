//! The buffers of a program's tables.
ghost use Rattle.unit_timing.specs.SystemBuffer.{SystemLaw};

/// States that neither the transport buffer nor the system buffer after it overflows if the work
/// of each by itself fits: a byte leaves the second a fixed time later than it would leave it
/// alone.
pub fn pair()
    ensures { SystemLaw }
{}
