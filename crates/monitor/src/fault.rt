//! Faults of a stream: which rule fails, at which packet, and for which PID.

/// The rules, in the order of their numbers (ETSI TR 101 290, 5.2).
#[derive(Clone, Copy, PartialEq, Eq, PartialOrd, Ord)]
pub enum Rule {
    /// 1: a packet does not begin with 0x47
    Sync,
    /// 2: the header or the adaptation field of a packet is refused
    Packet,
    /// 3: transport_error_indicator is 1
    Error,
    /// 4: a continuity_counter does not follow
    Counter,
    /// 5: the check word of a section is wrong
    Crc,
    /// 6: a section is refused for another reason
    Section,
    /// 7: no PAT for 500 ms
    Pat,
    /// 8: no PMT for 500 ms
    Pmt,
    /// 9: no NIT for 10 s
    Nit,
    /// 10: no SDT for 2 s
    Sdt,
    /// 11: no EIT of the present and following event for 2 s
    Eit,
    /// 12: no TDT for 30 s
    Tdt,
    /// 13: no PCR for the limit given
    Pcr,
    /// 14: no PTS for 700 ms
    Pts,
    /// 15: the stream ends within a packet
    Cut,
}

/// A rule that fails at a packet. The order is by packet, then by rule, then by PID.
#[derive(Clone, Copy, PartialEq, Eq, PartialOrd, Ord)]
pub struct StreamFault {
    /// the packet's index; the number of whole packets at the end of the stream
    pub packet: u64,
    pub rule: Rule,
    /// none for `Sync`, `Packet`, `Error` and `Cut`
    pub pid: Option<u16>,
}
