//! Laws of the definitions. Each function does nothing: its contract is the law.
ghost use Rattle.monitor.specs.Laws.{GapsOfEachPid, PacketByPacket, ReportWithoutState};

/// States that the late places that a state finds (it keeps the last place of each PID) are the places that a filter
/// over the successive places of the PID gives.
pub fn gaps_of_each_pid()
    ensures { GapsOfEachPid }
{}

/// States that the report of a state, packet by packet, is the report of each PID's packets and findings together, in a
/// stream of fewer than 2^64 - 1 packets.
pub fn report_without_state()
    ensures { ReportWithoutState }
{}

/// States that the state after each packet is the state of all packets so far, and that the report at the end of the
/// stream is the report without a state.
pub fn packet_by_packet()
    ensures { PacketByPacket }
{}
