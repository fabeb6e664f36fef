//! Laws over the definitions.
ghost use Rattle.sound_packets.specs.Laws.{FewFrames, SameBytes};

/// Proves that the bytes of the PES packets of each PID stay the same, in order.
pub fn same_bytes()
    ensures { SameBytes }
{}

/// Proves that no more frames than asked for begin in a piece.
pub fn few_frames()
    ensures { FewFrames }
{}
