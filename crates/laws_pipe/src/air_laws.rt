//! One job, by two programs. Each function does nothing: its contract is the law.
ghost use Rattle.laws_pipe.specs.AiredAsMuxed.{AirsWhatMuxWrites, RefusesNone};

/// States that, if `tsair` ends with status 0, over the bytes of a job that `mux` takes with the same options, it wrote
/// what `mux` writes: each packet, byte for byte, in whatever order the records came.
pub fn same_output()
    ensures { AirsWhatMuxWrites }
{}

/// States that `tsair` refuses no record of such a job, if they are in order of their DTS, or out of order by no more
/// than the run waits, and no further ahead than it allows: no unit is late, and there is room for each. Ticks may be
/// among them, each counted as a unit of its DTS for the records after it.
pub fn none_refused()
    ensures { RefusesNone }
{}
