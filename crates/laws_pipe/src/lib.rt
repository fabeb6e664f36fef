//! `tsmux mux` reads the job that `tsjob` writes, and refuses nothing of it.
//!
//! Each function here is a law: it does nothing, and its contract states a fact about the contracts of both programs'
//! `run`. `specs/PipedJobs` says when one program's output is the next program's input, and what then goes through;
//! `specs/PipedFiles` the same for a job of the streams in files; `specs/StreamedUnits` when both ways of `tsjob units`
//! write the same units.
//!
//! - [`laws`]: a written job is read as its description, its plan and its units; `mux` writes all packets of a job that
//!   `tsjob` makes of a stream, or of streams in files, and they give the units back; the units that are written while
//!   a stream arrives are the units of the whole stream.
//!
//! `tsair` writes what `tsmux mux` writes for the same job, byte for byte: `specs/AiredAsMuxed` says when two command
//! lines ask for the same, and what records in order are.
//!
//! - [`air_laws`]: a run that ends with status 0 wrote what `mux` writes; records in order are not refused.
#![tactic(auto)]

pub mod air_laws;
pub mod laws;
