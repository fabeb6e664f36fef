//! Conditions that a plan has to keep.

ghost use Rattle.std.specs.Prelude.{◌≡◌};
ghost use Rattle.slot_plan.specs.Entries.{code_of};

/// A condition that a plan has to keep. The last six are conditions of a second plan after a first plan.
#[derive(Clone, Copy, Debug, PartialEq, Eq)]
pub enum Condition {
    /// The period's length, the items that its slots name, the items that have slots, the entries of the certificate.
    Shape,
    /// PCRs recur within the program's limit (ISO/IEC 13818-1, 2.7.2).
    PcrGap,
    /// Sections recur within the table's limit (ETSI TR 101 290, 5.2).
    TableGap,
    /// A stream's own slots stray from even spacing by no more than claimed.
    Spread,
    /// A stream has slots enough for unit after unit.
    StreamRate,
    /// A transport buffer of 512 bytes never overflows (ISO/IEC 13818-1, 2.4.2.3).
    TransportBuffer,
    /// A unit has left the transport buffer by its decoding time.
    StreamLead,
    /// The bytes that wait for their decoding time find room in the main buffer.
    MainBuffer,
    /// A program's system buffer of 1,536 bytes never overflows.
    SystemBuffer,
    /// The multiplexing buffer of a stream of video never overflows (ISO/IEC 13818-1, 2.4.2.3).
    MultiplexingBuffer,
    /// A unit has left the multiplexing buffer, and is in the elementary stream buffer, by its decoding time.
    ElementaryLead,
    /// The sections of a transponder's sub-tables are 25 ms apart, also across a switch (ETSI EN 300 468, 5.1.4.1).
    SectionDistance,
    /// PCRs recur across the switch.
    PcrSwitch,
    /// Sections recur across the switch.
    TableSwitch,
    /// The first plan leaves no more work than the second begins with.
    WorkSwitch,
    /// A unit sent across the switch has left the transport buffer by its decoding time.
    LeadSwitch,
    /// The bytes that wait across the switch find room in the main buffer.
    MainSwitch,
    /// A unit sent across the switch has left the multiplexing buffer by its decoding time.
    ElementarySwitch,
}

impl Condition {
    /// Returns the number of the condition, 1 to 18.
    pub fn code(self) -> u8
        ensures { result ≡ code_of self }
    {
        match self {
            Condition::Shape => 1,
            Condition::PcrGap => 2,
            Condition::TableGap => 3,
            Condition::Spread => 4,
            Condition::StreamRate => 5,
            Condition::TransportBuffer => 6,
            Condition::StreamLead => 7,
            Condition::MainBuffer => 8,
            Condition::SystemBuffer => 9,
            Condition::MultiplexingBuffer => 10,
            Condition::ElementaryLead => 11,
            Condition::SectionDistance => 18,
            Condition::PcrSwitch => 12,
            Condition::TableSwitch => 13,
            Condition::WorkSwitch => 14,
            Condition::LeadSwitch => 15,
            Condition::MainSwitch => 16,
            Condition::ElementarySwitch => 17,
        }
    }
}

/// How the two numbers of a condition have to compare.
#[derive(Clone, Copy, Debug, PartialEq, Eq)]
pub enum Relation {
    /// The left one is at most the right one.
    AtMost,
    /// The numbers are equal: the counts of a certificate's entries.
    Equal,
}
