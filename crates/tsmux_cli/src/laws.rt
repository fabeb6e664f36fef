//! Laws over the definitions.
ghost use Rattle.tsmux_cli.specs.Laws.{GoodCarries, GoodRuns};

/// States that, if `mux` ended with status 0, it read its input to the end, the bytes are a job with nothing that is
/// refused, and it wrote the packets of that job, which keep every promise. The bytes are the input's own if a contract
/// knows these. No contract knows the bytes of a standard input: there the packets are those of some job.
pub fn good_runs()
    ensures { GoodRuns }
{}

/// States that, if `carry` ended with status 0, the bytes that it read are whole records, none of them refused, and it
/// wrote the packets of all their units. The bytes are the input's own if a contract knows these; at a standard input
/// the packets are those of some records.
pub fn good_carries()
    ensures { GoodCarries }
{}
