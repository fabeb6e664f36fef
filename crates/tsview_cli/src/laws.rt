//! Laws of the definitions. The function does nothing: its contract is the law.
ghost use Rattle.tsview_cli.specs.Laws.{InStepViewed};

/// States that a stream whose packets each begin 188 bytes after the packet before is viewed packet by packet, from its
/// first byte on.
pub fn in_step_viewed()
    ensures { InStepViewed }
{}
