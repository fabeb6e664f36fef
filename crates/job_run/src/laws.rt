//! Laws over the definitions.
ghost use Rattle.job_run.specs.Laws.{StatusStays};

/// Proves that a status does not depend on which lines are reported.
pub fn status_stays()
    ensures { StatusStays }
{}
