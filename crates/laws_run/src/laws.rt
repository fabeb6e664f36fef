//! What a demultiplexer finds in the finished bytes of a run. Each function does nothing: its contract is
//! the law.
ghost use Rattle.laws_run.specs.GivenBack.{GivenBackLaw, AnyStateLaw, DrivenLaw, StreamsBackLaw, AnyStateStreamsLaw};
ghost use Rattle.laws_run.specs.Clean.{CleanLaw, AnyStateCleanLaw, DrivenCleanLaw};
ghost use Rattle.laws_run.specs.Jobs.{JobLaw, JobCleanLaw};
ghost use Rattle.laws_run.specs.Monitored.{SoundLaw, AnyStateSoundLaw, JobSoundLaw};
ghost use Rattle.laws_run.specs.Monitored.{InTimeLaw, AnyStateInTimeLaw, JobInTimeLaw};
ghost use Rattle.laws_run.specs.Reported.{ReportedLaw, AnyStateReportedLaw, JobReportedLaw};
ghost use Rattle.laws_run.specs.PtsSpacing.{PtsSpacingLaw, AnyStatePtsSpacingLaw, JobPtsSpacingLaw};
ghost use Rattle.laws_run.specs.CarriedBack.{CarriedBackLaw, AcceptedUnitsFit};
ghost use Rattle.laws_run.specs.FollowedTables.{FollowedLaw};
ghost use Rattle.laws_run.specs.TablesFirst.{TablesFirstLaw};
ghost use Rattle.laws_run.specs.WorkedRun.{WorkedRun};
ghost use Rattle.laws_run.specs.WorkedSwitch.{WorkedSwitch};

/// States that the bytes of a run, demultiplexed with their end, give back on each stream's PID exactly its units,
/// in order: each unit that was sent whole with its stream_id, its stamps as on the wire and its data, then
/// the current unit as truncated, or as a PES packet that did not end if it has no PES_packet_length
/// (ISO/IEC 13818-1, 2.4.3.7); on each table's PID exactly its sections as of their moments; and
/// nothing else on any PID. Left open are PIDs with a ready-made section that is taken for a PES packet
/// or for stuffing. For one plan and for two in turn; of units and slots in any order, accepted or
/// refused. The units also if the texts of the tables change.
pub fn given_back()
    ensures whole { GivenBackLaw }
    ensures any_state { AnyStateLaw }
    ensures driven { DrivenLaw }
    ensures streams { StreamsBackLaw }
    ensures any_texts { AnyStateStreamsLaw }
{}

/// States that nothing is wrong with these bytes: no packet is refused, flagged in error, scrambled or
/// repeated, each continuity_counter follows, and no section is refused (ETSI TR 101 290, 5.2.1).
pub fn clean()
    ensures whole { CleanLaw }
    ensures any_state { AnyStateCleanLaw }
    ensures driven { DrivenCleanLaw }
{}

/// States the same for the output of `mux_core::multiplex` and `multiplex_switch` for a whole job.
pub fn jobs()
    ensures given_back { JobLaw }
    ensures clean { JobCleanLaw }
{}

/// States that the output of `mux_core::carry`, a stream's units on a PID of their own, gives back exactly these
/// units, and that this covers each unit that it accepts.
pub fn carried_back()
    ensures whole { CarriedBackLaw }
    ensures accepted { AcceptedUnitsFit }
{}

/// States that a monitor reports no fault that packets and findings have by themselves (ETSI TR 101 290, 5.2.1 and
/// 5.2.2): each packet has its sync byte, can be read and is not marked in error, the last one is whole, each
/// continuity_counter follows on its PID, and no section is refused. In the definitions of `monitor`.
pub fn monitored()
    ensures whole { SoundLaw }
    ensures any_state { AnyStateSoundLaw }
    ensures jobs { JobSoundLaw }
{}

/// States that a monitor at the description's rate reports nothing as too late: clock references, if the limit given to
/// the monitor, in milliseconds, is at least each program's (ISO/IEC 13818-1, 2.7.2), and sections of the PAT, of the
/// PMTs that it names, of the NIT, SDT, EIT and TDT (ETSI TR 101 290, 5.2.1 and 5.2.3). For one plan that keeps its
/// conditions and for two, whatever sections are ready-made.
pub fn monitored_times()
    ensures whole { InTimeLaw }
    ensures any_state { AnyStateInTimeLaw }
    ensures jobs { JobInTimeLaw }
{}

/// States that all faults by all fifteen rules of a monitor, at the description's rate, are faults of PTS (ETSI
/// TR 101 290, 5.2.2), which depend on the units alone.
pub fn monitored_whole()
    ensures whole { ReportedLaw }
    ensures any_state { AnyStateReportedLaw }
    ensures jobs { JobReportedLaw }
{}

/// States that there is no fault at all if each unit's DTS is at most 700 ms less the stream's lead after the DTS of
/// the unit before, and no ready-made section is taken for a PES packet or for stuffing.
pub fn monitored_pts_spacing()
    ensures whole { PtsSpacingLaw }
    ensures any_state { AnyStatePtsSpacingLaw }
    ensures jobs { JobPtsSpacingLaw }
{}

/// States that a decoder that follows PAT and PMT (ISO/IEC 13818-1, 2.4.4.3 and 2.4.4.8) learns, in a run of more than
/// a second, the PID of each program's map, and from it the PIDs of its clock references, of its streams, of its shared
/// streams and of the private tables that name it. With `mux_core::laws::decoded` it so gets each due unit, whole and
/// in time.
pub fn followed()
    ensures { FollowedLaw }
{}

/// States that such a decoder already knows each program and its streams before a packet of a stream whose units are
/// due 2 s after the run's begin or later.
pub fn tables_first()
    ensures { TablesFirstLaw }
{}

/// States that there is a run that meets every premise of the headline: a service of one stream, a plan of four slots
/// that serves it, and a unit; its six packets are known byte by byte, and keep every promise.
pub fn worked_run()
    ensures { WorkedRun }
{
    slot_plan::timing_laws::accepted_plan();
}

/// States the same of a run of two plans in turn, with video that has a multiplexing buffer and sound in PES packets of
/// two access units: all units of both streams are sent and due in it, and the slots of both streams change with the
/// plan.
pub fn worked_switch()
    ensures { WorkedSwitch }
{
    slot_plan::timing_laws::accepted_switch();
}
