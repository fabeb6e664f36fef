//! Jobs made of a stream, multiplexed and demultiplexed. Each function does nothing: its contract is the law.
ghost use Rattle.laws_job.specs.Laws.{AcceptedLaw, CarriedLaw, FoundAgainLaw, OwnAgainLaw, SameAgainLaw};
ghost use Rattle.laws_job.specs.DeclaredBuffers.{DeclaredLaw, BuffersKeptLaw};
ghost use Rattle.laws_job.specs.FirstUnits.{FirstUnitsLaw, TablesFirstLaw};
ghost use Rattle.laws_job.specs.JoinedLaws.{JoinedAcceptedLaw, JoinedAgainLaw};
ghost use Rattle.laws_job.specs.LeftOut.{NothingIsSilent};
ghost use Rattle.laws_job.specs.CarriedLoops.{LoopsCarriedLaw};
ghost use Rattle.laws_job.specs.JobLines.{JobLinesLaw};
ghost use Rattle.laws_job.specs.FoundOrNamed.{FoundOrNamedLaw, JoinedOrNamedLaw};
ghost use Rattle.laws_job.specs.StrayPayload.{LostPayloadLaw, StrayPayloadLaw};
ghost use Rattle.laws_job.specs.WorkedJob.{WorkedJob};

/// States that no unit of such a job is refused, in the job's order and before the first slot: each stream's units keep
/// what its description declares, and have room.
pub fn accepted()
    ensures { AcceptedLaw }
{
    mux_core::laws::room_for_all();
}

/// States that over a plan that serves the description, the bytes of n slots, 2^40 at most, give back the units of each
/// stream, with nothing wrong; each unit has left its transport buffer by its DTS, no buffer overflows, and PCRs and
/// tables recur within their limits; and the units are the units found on the stream's PID, their stamps moved by one
/// constant, their marks and bytes the same. Video with a multiplexing buffer overflows neither this buffer nor the
/// elementary stream buffer, and each due unit is whole in the second by its DTS. If a unit has several access units,
/// each removed at its own time, the main buffer does not overflow.
pub fn carried()
    ensures { CarriedLaw }
{
    accepted();
    laws_run::laws::jobs();
    slot_plan::timing_laws::accepted_plan();
    mux_core::laws::headline();
}

/// States that the description of a job has for each stream the multiplexing buffer and the access units that were
/// chosen for the stream of the input, if all its numbers are TOML's (`buffers`). So the bytes of such a job keep these
/// buffers (`kept`).
pub fn declared()
    ensures buffers { DeclaredLaw }
    ensures kept { BuffersKeptLaw }
{
    job_text::texts_are_read();
    carried();
}

/// States that if the run ends no earlier than the DTS of each unit of a stream, a demultiplexer finds all these units
/// and no further unit in these bytes, with their end: on the stream's PID the units are the units of the input, in
/// order, their marks and bytes the same and their stamps later by one constant, modulo 2^33. If units of a data stream
/// in a row have one DTS, all but the last are decoded a little earlier; if no two units have one DTS, each keeps its
/// own (`own`). If the constant is 0, they are the input's.
pub fn found_again()
    ensures moved { FoundAgainLaw }
    ensures own { OwnAgainLaw }
    ensures same { SameAgainLaw }
{
    carried();
    slot_plan::timing_laws::accepted_plan();
}

/// States that a job's description has the status of the input's services, the descriptors that its SDT, EIT and NIT
/// have of services, events and the network, loop for loop, and the other transport streams of that network.
pub fn loops()
    ensures { LoopsCarriedLaw }
{}

/// States that no unit of a job made of several inputs is refused either.
pub fn joined_accepted()
    ensures { JoinedAcceptedLaw }
{
    mux_core::laws::room_for_all();
}

/// States for a job made of several inputs: if the run ends no earlier than the DTS of each unit of a stream, a
/// demultiplexer finds on its PID in these bytes, with their end, all units on the wire that made its units, and no
/// other: in order, their bytes the same and their stamps later by one constant, modulo 2^33. `job_inputs` says which
/// units these are: the findings in the stream's own input, on the PID that it had there.
pub fn joined_again()
    ensures { JoinedAgainLaw }
{
    joined_accepted();
    laws_run::laws::jobs();
    slot_plan::timing_laws::accepted_plan();
}

/// States that PAT and PMT precede the units of a job, if the streams on a clock begin near one another: a decoder that
/// follows PAT and PMT (ISO/IEC 13818-1, 2.4.4.3 and 2.4.4.8) knows each program and its streams before a packet of a
/// stream, since the units of each stream are due 2 s after the run's begin or later (`units`). The same is true of any
/// units that are due as late (`tables`).
pub fn tables_first()
    ensures units { FirstUnitsLaw }
    ensures tables { TablesFirstLaw }
{
    slot_plan::timing_laws::accepted_plan();
    laws_run::laws::tables_first();
}

/// States that nothing found of a stream is left out in silence: each PES packet on its PID is padding_stream (ISO/IEC
/// 13818-1, 2.4.3.7), or a part of a unit that is carried, or a line names its first packet or the first packet of its
/// unit; and a line names each counter that breaks, scrambled or stray packet, section, and PES packet that is cut or
/// wrong (`found`). The warnings of a job have these lines of all its streams, and a line for each damaged packet and
/// for each stream that is left out, except by an option (`lines`).
pub fn nothing_is_silent()
    ensures found { NothingIsSilent }
    ensures lines { JobLinesLaw }
{}

/// States that everything found on a stream's PID is in the output of the job, or a line says why not: if the run ends
/// no earlier than the DTS of each unit of the stream, each PES packet on its PID is padding_stream, or its bytes are a
/// part of a unit that a demultiplexer finds in the bytes of the job, or a line names its first packet or the first
/// packet of its unit (`alone`). The same is true of a job made of several inputs (`joined`).
pub fn found_or_named()
    ensures alone { FoundOrNamedLaw }
    ensures joined { JoinedOrNamedLaw }
{
    found_again();
    joined_again();
    nothing_is_silent();
}

/// States which payload of a PID's packets is found as stray, if it is not scrambled and begins nothing: payload before
/// the first beginning, after a loss or a section up to the next beginning, and after the bytes that a PES packet or a
/// section has by its own length. All other payload continues the open PES packet or section (`found`). If the counter
/// breaks, the payload is stray (`lost`).
pub fn stray_payload()
    ensures found { StrayPayloadLaw }
    ensures lost { LostPayloadLaw }
{}

/// States that a job is made of a small stream: a demultiplexer finds a PAT, a PMT and two units of sound in its four
/// packets, and these findings give the input of a job, whose values are all known. So the laws above are about
/// something.
pub fn worked_job()
    ensures { WorkedJob }
{}
