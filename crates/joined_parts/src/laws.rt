//! The laws of the definitions. They do nothing: their contracts are the laws.

ghost use Rattle.joined_parts.specs.Laws.{NothingElseMoves, PartsComeInOrder, WholeRecordingStays};

/// States that nothing of the findings changes except the stamps of PES packets.
pub fn nothing_else_moves()
    ensures { NothingElseMoves }
{}

/// States that a recording whose clocks don't jump stays as it is.
pub fn whole_recording_stays()
    ensures { WholeRecordingStays }
{}

/// States that each unit after a cut is due at least 0.3 s and at most 20.3 s after each unit before it, if the DTS of
/// each is at most 10 s after the reference beside the cut.
pub fn parts_come_in_order()
    ensures { PartsComeInOrder }
{}
