//! The law of the definitions. It does nothing: its contract is the law.

ghost use Rattle.stamp_repair.specs.TextLaws.{OthersStay};

/// States that all that is found of a PID stays as it is, if the PID has no PES packet of private_stream_1, or has one
/// with a PTS.
pub fn others_stay()
    ensures { OthersStay }
{}
