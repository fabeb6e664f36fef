//! Laws of the rules that both programs judge by. Each is a function that does nothing: its contract is the law, over
//! the definitions of `specs/` alone, and a caller may cite it.
ghost use Rattle.monitor.specs.declared.fault.Rule.TheVariants as rules;
ghost use Rattle.laws_view.specs.Continuity.{CounterLaw, EachCounterLaw};
ghost use Rattle.laws_view.specs.CounterFaults.{CounterFaultLaw};
ghost use Rattle.laws_view.specs.FaultPids.{PidLaw};
ghost use Rattle.laws_view.specs.Limits.{MonitorLimits, TsviewKeeps, eit_limit, nit_limit, sdt_limit, tdt_limit};
ghost use Rattle.laws_view.specs.PacketFaults.{EndLaw, NamesPackets, has_sync_byte_error, has_transport_error, is_unreadable};
ghost use Rattle.laws_view.specs.References.{ReferenceLaw, ReferencesInOrder};
ghost use Rattle.laws_view.specs.SharedRules.{IsShared, PcrLaw};
ghost use Rattle.laws_view.specs.TableFaults.{FindingFaultLaw, MapFaultLaw, PatFaultLaw, StampFaultLaw, TableErrorLaw, TableFaultLaw};
ghost use Rattle.laws_view.specs.Tables.{GapLaw, TableLaw};
ghost use Rattle.laws_view.specs.ViewedFaults.{EndFaultLaw};

/// States that each fault of a report has the PID of its rule: no PID by rules 1 to 3 and 15, the PID of the table by
/// rules 7 and 9 to 12, some PID by each further rule. So the laws of the rules describe a whole report.
pub fn pids()
    ensures { PidLaw }
{}

/// States at which packets the monitor reports the faults of single packets, and that it reports no further packet:
/// packets that do not begin with 0x47 (5.2.1, 1.2), packets that begin with 0x47 and can't be read, packets that can
/// be read and have transport_error_indicator 1 (5.2.2, 2.1), and the end, if bytes are left after the last whole
/// packet.
pub fn packets()
    ensures sync { NamesPackets rules.Sync has_sync_byte_error }
    ensures packet { NamesPackets rules.Packet is_unreadable }
    ensures error { NamesPackets rules.Error has_transport_error }
    ensures end { EndLaw }
{}

/// States that both name the same packets that do not begin with 0x47 (ETSI TR 101 290, 5.2.1, 1.2), that can't be
/// read, and that have transport_error_indicator (5.2.2, 2.1), in a stream of fewer than 2^64 - 1 packets.
pub fn refusals()
    ensures sync { IsShared rules.Sync }
    ensures packet { IsShared rules.Packet }
    ensures error { IsShared rules.Error }
{}

/// States that both name the same packets whose continuity_counter does not follow (5.2.1, 1.4): the continuity errors
/// of the stream's packets. States at which packets of a PID, by its own packets alone, whatever packets come between.
pub fn continuity()
    ensures errors { CounterLaw }
    ensures shared { IsShared rules.Counter }
    ensures each { EachCounterLaw }
    ensures breaks { CounterFaultLaw }
{}

/// States that the monitor reports a clock reference of a PID if and only if it is not the PID's first and the PID had
/// none within the limit before it (5.2.2, 2.3), each once and in order; and that before the end of the stream `tsview`
/// finds the same.
pub fn clock_references()
    ensures late { ReferenceLaw }
    ensures order { ReferencesInOrder }
    ensures shared { PcrLaw }
{}

/// States that the monitor reports a section of a table if and only if it begins later after the one before than ETSI
/// TR 101 290 allows: NIT, SDT and EIT of the actual stream and TDT (5.2.3, 3.1.a, 3.5.a, 3.6.a and 3.8); the PAT from
/// the beginning to the end of the stream (5.2.1, 1.3.a), and program maps from where they are named to the end
/// (1.5.a).
pub fn late_tables()
    ensures pat { PatFaultLaw }
    ensures pmt { MapFaultLaw }
    ensures nit { TableFaultLaw nit_limit 0x10 0x40 }
    ensures sdt { TableFaultLaw sdt_limit 0x11 0x42 }
    ensures eit { TableFaultLaw eit_limit 0x12 0x4E }
    ensures tdt { TableFaultLaw tdt_limit 0x14 0x70 }
{}

/// States that the monitor reports a packet for a section if and only if a section ends there whose check word is wrong
/// (5.2.2, 2.2), or that is refused for another reason.
pub fn sections()
    ensures crc { FindingFaultLaw rules.Crc }
    ensures section { FindingFaultLaw rules.Section }
{}

/// States that the monitor reports a PES packet with a PTS if and only if it begins more than 700 ms after the one
/// before on its PID (5.2.2, 2.5).
pub fn late_stamps()
    ensures { StampFaultLaw }
{}

/// States that a gap of packets is too long for both programs or for neither, whatever the limit, and that among the
/// findings on a PID the same sections of a table begin late for both, if the table has no parts that have to recur by
/// themselves (5.2.1, 1.3; 5.2.3, 3.1, 3.5 and 3.8). The monitor reports these errors of NIT, SDT and TDT. At the end
/// `tsview` has only faults of tables and clock references that have stopped, among the faults for which the monitor
/// has a rule.
pub fn tables()
    ensures gaps { GapLaw }
    ensures tables { TableLaw }
    ensures ends { EndFaultLaw }
    ensures nit { TableErrorLaw nit_limit 0x10 0x40 }
    ensures sdt { TableErrorLaw sdt_limit 0x11 0x42 }
    ensures tdt { TableErrorLaw tdt_limit 0x14 0x70 }
{}

/// States that the limits of both programs are the limits of one table.
pub fn limits()
    ensures monitor { MonitorLimits }
    ensures tsview { TsviewKeeps }
{}
