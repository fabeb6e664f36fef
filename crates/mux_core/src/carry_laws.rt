//! Laws of the definitions. Each function does nothing: its contract is the law.

ghost use Rattle.mux_core.specs.CarryLaws.{RunsAreWhole, PacketsJoin};

/// States that an input has no more records than bytes, so the run that is defined over that number of records is
/// the whole run.
pub fn runs_are_whole()
    ensures { RunsAreWhole }
{}

/// States that the packets of payloads, listed one by one, are the packets that `ts_packet` defines.
pub fn packets_join()
    ensures { PacketsJoin }
{}
