//! Laws of the report on a stream. Each function does nothing: its contract is the law, over the definitions of
//! `specs/`.
ghost use Rattle.laws_view.specs.AsMeasured.{AsMeasuredLaw, JobAsMeasuredLaw, JobLateAsMeasuredLaw, RunAsMeasuredLaw, RunLateAsMeasuredLaw};
ghost use Rattle.laws_view.specs.ClockedWindows.{ClockedTablesLaw, ClockedWindowLaw, ClockedWithoutLaw};
ghost use Rattle.laws_view.specs.FirstHighs.{ClockedFirstLaw, FirstHighLaw};
ghost use Rattle.laws_view.specs.FrameExcesses.{JobFramesLaw, RunFramesLaw};
ghost use Rattle.laws_view.specs.HeldWindows.{FirstWindowLaw, HeldWindowLaw, RateWithoutLaw, TimedWindowLaw, TimedWithoutLaw};
ghost use Rattle.laws_view.specs.HomeTables.{JobHomesLaw, RunHomesLaw};
ghost use Rattle.laws_view.specs.LeftFaults.{JobFaultsLaw, RunFaultsLaw};
ghost use Rattle.laws_view.specs.MainExcesses.{NoMainExcessLaw, TimedNoExcessLaw};
ghost use Rattle.laws_view.specs.MeasuredStreams.{MeasuredStreamLaw};
ghost use Rattle.laws_view.specs.MuxedStreams.{JobNoExcessLaw, MuxedStreamLaw};
ghost use Rattle.laws_view.specs.MuxedTables.{JobTablesLaw, RunTablesLaw};
ghost use Rattle.laws_view.specs.SectionsApart.{JobDistancesLaw, RunDistancesLaw};
ghost use Rattle.laws_view.specs.TimedStreams.{ClockedStreamLaw, RateOrderLaw, TimedStreamLaw};
ghost use Rattle.laws_view.specs.TransportHighs.{ClockedTransportLaw, RateTransportLaw, TimedTransportLaw, TransportHighLaw, TransportWithoutLaw, WindowTransportLaw};
ghost use Rattle.laws_view.specs.VideoExcesses.{JobElementaryLaw, JobMultiplexingLaw, RunElementaryLaw, RunMultiplexingLaw};
ghost use Rattle.laws_view.specs.ViewedCounters.{JobCountersLaw, RunCountersLaw, ViewedCountersLaw};
ghost use Rattle.laws_view.specs.ViewedReferences.{JobReferencesLaw, RunReferencesLaw};
ghost use Rattle.laws_view.specs.ViewedRuns.{JobFirstLaw, JobLateLaw, JobLateUnitsLaw, JobMainLaw, RunFirstLaw, RunLateLaw, RunLateUnitsLaw, RunMainLaw};
ghost use Rattle.laws_view.specs.ViewedSections.{JobCheckWordsLaw, RunCheckWordsLaw};
ghost use Rattle.laws_view.specs.ViewedTables.{JobTableEventsLaw, RunTableEventsLaw, ViewedTablesLaw};
ghost use Rattle.laws_view.specs.ViewedVerdicts.{JobVerdictLaw, RunVerdictLaw};
ghost use Rattle.laws_view.specs.WholeStreams.{LastEventsLaw, WholeStreamLaw};
ghost use Rattle.laws_view.specs.WindowHighs.{ClockedHighLaw, HighWithoutLaw, RateHighLaw, TimedHighLaw, WholeHighLaw, WindowHighLaw, WindowMostLaw};
ghost use Rattle.laws_view.specs.WindowLows.{WholeWindowLaw, WindowLeastLaw, WindowLowLaw, WindowWithoutLaw};
ghost use Rattle.laws_view.specs.WorkedView.{WorkedView};

/// States for a constant rate that the last lines of a stream are about all packets of its PID, from the packet that
/// begins its buffers: the line `transport` has the greatest number of bytes in the transport buffer over all moments
/// (ISO/IEC 13818-1, 2.4.2.3) and the number of all excesses, the line `main` the greatest number of bytes in the main
/// buffer and the numbers of all units and of late units.
pub fn whole_streams()
    ensures whole { WholeStreamLaw }
    ensures events { LastEventsLaw }
{}

/// States the same fact for a stream whose packets arrive in any way that keeps the order of the bytes: at a constant
/// rate, and by the clock references of a stream, as a report without a rate takes them, at its end.
pub fn timed_streams()
    ensures timed { TimedStreamLaw }
    ensures rate { RateOrderLaw }
    ensures clocked { ClockedStreamLaw }
{}

/// States that there is no excess of a main buffer if its line says no more than its size, whichever way the stream's
/// packets arrive; and so at a constant rate.
pub fn main_excesses()
    ensures timed { TimedNoExcessLaw }
    ensures rate { NoMainExcessLaw }
{}

/// States that the least fullness in a line `held` of a main buffer is the least that the bytes of its window's packets
/// find in the buffer, which is its least fullness meanwhile, whichever way they arrive. A report counts it so for a
/// stream whose buffers began before the window, if a packet of the window carries payload; otherwise the line says how
/// many earlier bytes the buffer still holds, once the last of the packets has left the transport buffer.
pub fn window_lows()
    ensures counted { WindowLeastLaw }
    ensures low { WindowLowLaw }
    ensures whole { WholeWindowLaw }
    ensures without { WindowWithoutLaw }
    ensures timed { TimedWindowLaw }
    ensures timed_without { TimedWithoutLaw }
    ensures first { FirstWindowLaw }
    ensures report { HeldWindowLaw }
    ensures report_without { RateWithoutLaw }
{}

/// States the same fact for each window of a report on packets that arrive by clock references: its streams, once each
/// packet has been viewed, are the streams of its packets one by one, each as it arrives.
pub fn clocked_windows()
    ensures tables { ClockedTablesLaw }
    ensures window { ClockedWindowLaw }
    ensures without { ClockedWithoutLaw }
{}

/// States that the greatest that a line `held` says of a main buffer is the most that the bytes of its window's packets
/// find in it, themselves counted, which is the greatest fullness of the buffer from their first payload byte on:
/// earlier it may be more. A report counts it so for a stream whose buffers began before the window, whichever way
/// packets arrive; if no byte enters, the line says what the buffer still holds. The greatest of a transport buffer is
/// its greatest fullness from the first byte of the window's packets on, if bytes arrive in their order, as they do at
/// a constant rate and by clock references. If the buffers begin in the window, the line says what the lines
/// `transport` and `main` say so far.
pub fn window_highs()
    ensures counted { WindowMostLaw }
    ensures main { WindowHighLaw }
    ensures whole { WholeHighLaw }
    ensures without { HighWithoutLaw }
    ensures timed { TimedHighLaw }
    ensures report { RateHighLaw }
    ensures clocked { ClockedHighLaw }
    ensures first { FirstHighLaw }
    ensures clocked_first { ClockedFirstLaw }
    ensures counted_transport { WindowTransportLaw }
    ensures transport { TransportHighLaw }
    ensures without_transport { TransportWithoutLaw }
    ensures timed_transport { TimedTransportLaw }
    ensures rate_transport { RateTransportLaw }
    ensures clocked_transport { ClockedTransportLaw }
{}

/// States that the greatest number of bytes in a transport buffer is no more than what `tstd::measure` finds of the
/// same bytes, and the same where the stream's buffers begin with the first packet of its PID.
pub fn measured_streams()
    ensures { MeasuredStreamLaw }
{}

/// States that there is no excess of a transport buffer in the output of a multiplexer over a plan that keeps its
/// conditions, or over two in turn, viewed at its rate.
pub fn muxed_streams()
    ensures whole { MuxedStreamLaw }
    ensures jobs { JobNoExcessLaw }
{}

/// States that there is no excess of a main buffer there, wherever the stream's buffers begin; and that its line says
/// no more than `tstd::measure` finds in the same bytes, if they begin with the first packet of its PID.
pub fn muxed_main_buffers()
    ensures run { RunMainLaw }
    ensures jobs { JobMainLaw }
{}

/// States that the buffers of a stream do so if no unit of it is due before 2 s after the begin: PAT and PMT precede
/// its packets (ISO/IEC 13818-1, 2.4.4), so the view knows of it by then, whatever else is viewed.
pub fn muxed_after_tables()
    ensures first { RunFirstLaw }
    ensures jobs_first { JobFirstLaw }
    ensures run { RunLateUnitsLaw }
    ensures jobs { JobLateUnitsLaw }
{}

/// States that no unit is late in a view of it.
pub fn muxed_units()
    ensures run { RunLateLaw }
    ensures jobs { JobLateLaw }
{}

/// States that no clock reference of it has an error (ETSI TR 101 290, 5.2.2, 2.3.a, 2.3.b and 2.4): each comes at most
/// 100 ms after the one before it on its PID, with a value within a tick of its place.
pub fn muxed_references()
    ensures run { RunReferencesLaw }
    ensures jobs { JobReferencesLaw }
{}

/// States that there is no excess of the elementary stream buffer of video there either (ISO/IEC 13818-1, 2.4.2.3),
/// wherever the stream's buffers begin: its line reports no more than its size, if that is the size of the description.
/// Its multiplexing buffer has no excess either, although the view rounds up the time that a byte takes to leave it.
pub fn muxed_video_buffers()
    ensures run { RunElementaryLaw }
    ensures jobs { JobElementaryLaw }
    ensures multiplexing { RunMultiplexingLaw }
    ensures jobs_multiplexing { JobMultiplexingLaw }
{}

/// States that there is no excess of a main buffer there that is viewed by access units (ISO/IEC 13818-1, 2.4.2.3):
/// each access unit of a stream of sound whose access units the description declares is removed at its own decoding
/// time, if the view removes no byte later than a cut of the units into such access units does.
pub fn muxed_frames()
    ensures run { RunFramesLaw }
    ensures jobs { JobFramesLaw }
{}

/// States that the greatest numbers of bytes in both buffers of a stream at a constant rate that carries units on a
/// PID, whoever wrote it, are the numbers that `tstd::measure` finds in the same bytes: if its buffers begin with the
/// first packet of the PID, with or after a clock reference, and units go by clock references that agree with the rate.
pub fn carried_as_measured()
    ensures { AsMeasuredLaw }
{}

/// States the same for the output of a multiplexer, if the buffers begin so; and they do if no unit is due before 2 s
/// after the begin, as long as the view looks for clock references on the PID of a program's.
pub fn muxed_as_measured()
    ensures run { RunAsMeasuredLaw }
    ensures jobs { JobAsMeasuredLaw }
    ensures late_run { RunLateAsMeasuredLaw }
    ensures late_jobs { JobLateAsMeasuredLaw }
{}

/// States that the events `continuity` of a view of any stream are the errors of continuity_counter in its bytes (ETSI
/// TR 101 290, 5.2.1, 1.4), and that a view of the output of a multiplexer has none.
pub fn viewed_counters()
    ensures viewed { ViewedCountersLaw }
    ensures run { RunCountersLaw }
    ensures jobs { JobCountersLaw }
{}

/// States that in the output of a multiplexer, at its rate, no section of the PAT, of a program's map, of NIT, SDT and
/// EIT of the actual stream, and of the TDT is late by the rules of a view (ETSI TR 101 290, 1.3.a, 1.5.a, 3.1.a,
/// 3.5.a, 3.6.a and 3.8): of the EIT sections 0 and 1 each by themselves.
pub fn muxed_tables()
    ensures run { RunTablesLaw }
    ensures jobs { JobTablesLaw }
{}

/// States that without ready-made tables no event of a view of this output is of a section with a wrong check word (ETSI
/// TR 101 290, 5.2.2, 2.2).
pub fn muxed_check_words()
    ensures run { RunCheckWordsLaw }
    ensures jobs { JobCheckWordsLaw }
{}

/// States that no event of a view of this output is of a section whose table does not belong on its PID (ETSI TR 101
/// 290, 5.2.1, 1.3.a; 5.2.2, 2.6; 5.2.3, 3.1.a, 3.5.a, 3.6.a, 3.7 and 3.8).
pub fn muxed_homes()
    ensures run { RunHomesLaw }
    ensures jobs { JobHomesLaw }
{}

/// States that no section of a whole transponder's output without ready-made tables comes too soon in a view at its rate:
/// each of NIT, SDT, EIT and TDT begins at least 25 ms after the end of the section before it of its PID, table_id and
/// table_id_extension (ETSI EN 300 468, 5.1.4.1).
pub fn muxed_distances()
    ensures run { RunDistancesLaw }
    ensures jobs { JobDistancesLaw }
{}

/// States that at a constant rate the events of late sections of a table in a view of any stream are the errors of its
/// sections that begin on the PID, if no stream on the PID is viewed.
pub fn viewed_tables()
    ensures { ViewedTablesLaw }
{}

/// States that no event of a view of this output is of a late section on a PID without a ready-made table, whatever
/// streams are viewed.
pub fn muxed_table_events()
    ensures run { RunTableEventsLaw }
    ensures jobs { JobTableEventsLaw }
{}

/// States what is left to decide the verdict of a view on this output without ready-made tables, which is good exactly
/// if the view's counts are good (`is_good` of `ts_report`) and no event is a fault. The counts are good exactly if
/// buffers and units are: no packet is refused, no error of a counter, a clock reference or a table is counted, and no
/// byte is left (`run`, `jobs`). No packet gives a fault except of buffers and units, of a PTS or of a PID's packet that
/// comes too late, of a section that comes too soon, and of a scrambled table (`faults`, `jobs_faults`).
pub fn muxed_verdicts()
    ensures run { RunVerdictLaw }
    ensures jobs { JobVerdictLaw }
    ensures faults { RunFaultsLaw }
    ensures jobs_faults { JobFaultsLaw }
{}

/// States that a view of the packets of the worked run finds no fault, and that a view of the same packets with another
/// continuity_counter finds this fault and no other. So the laws above are about something.
pub fn worked_view()
    ensures { WorkedView }
{}
