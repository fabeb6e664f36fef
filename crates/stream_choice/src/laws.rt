//! The law of shares.

ghost use Rattle.stream_choice.specs.ShareLaws.{ShareLaw};

/// States that own slots of a stream's share serve it: if they are no fewer than the share asks for, stray from even
/// spacing by at most one distance between them and two slots, and leave no more than the reckoned bytes in the last
/// buffer before the units' buffer, then groups of units have slots enough, and units in a row have left that buffer by
/// their decoding times.
pub fn shares_serve()
    ensures { ShareLaw }
{}
