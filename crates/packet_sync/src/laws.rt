//! Laws of the definitions. Each function does nothing: its contract is the law.

ghost use Rattle.packet_sync.specs.Laws.{CarriedInStep, NothingElseIsLeftOut};

/// States that a stream whose packets each begin 188 bytes after the packet before has no slip, and is carried
/// unchanged.
pub fn carried_in_step()
    ensures { CarriedInStep }
{}

/// States that the carried bytes and the slips' bytes are together as many as the stream's bytes.
pub fn nothing_else_is_left_out()
    ensures { NothingElseIsLeftOut }
{}
