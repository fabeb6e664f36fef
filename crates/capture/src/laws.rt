//! Laws of captures. Each function does nothing: its contract is the law.
ghost use Rattle.capture.specs.Laws.{CarriedAndSlips, InStepAsItIs};

/// States that the parts of a stream whose packets each begin 188 bytes after the packet before are its packets, cut
/// from its first byte on.
pub fn in_step_as_it_is()
    ensures { InStepAsItIs }
{}

/// States that the parts of a stream of packets of 188 bytes are its carried bytes and its slips.
pub fn carried_and_slips()
    ensures { CarriedAndSlips }
{}
