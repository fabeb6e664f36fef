//! Kinds of faults, and where a fault is.
ghost use Rattle.std.specs.Prelude.{◌≡◌};
ghost use Rattle.events.specs.FaultKinds as spec;

use crate::check::Check;

/// The kind of a fault: the word of its line, or the cause of a refused packet.
#[derive(Clone, Copy)]
pub enum FaultKind {
    Slip,
    Empty,
    NoStream,
    OtherRate,
    Unclocked,
    SyncByte,
    Header,
    TransportError,
    Continuity,
    CheckWord,
    Excess,
    MainExcess,
    MultiplexingExcess,
    ElementaryExcess,
    SystemExcess,
    SystemMainExcess,
    Late,
    ElementaryLate,
    Ahead,
    PcrRepetition,
    PcrDiscontinuity,
    PcrAccuracy,
    PtsRepetition,
    TableRepetition,
    SectionDistance,
    OtherTable,
    ScrambledTable,
    NoCat,
    NotEmpty,
    Delayed,
    Unreferenced,
    Missing,
    Rest,
    NoStamps,
    StampJump,
    NoTable,
    PidRepetition,
}

/// Where a fault is: in the whole stream, in the stream of a PID, in the tables of a program, or in a table by PID and
/// table_id.
#[derive(Clone, Copy)]
pub enum FaultSource {
    Whole,
    Stream(u16),
    Program(u16),
    Table(u16, u8),
}

impl FaultKind {
    /// Returns the word of a kind.
    #[tactic(auto, unfolding(crate::specs::FaultKinds::word_of))]
    pub fn word(self) -> &'static str
        ensures { result.now ≡ spec.word_of self }
    {
        match self {
            FaultKind::Slip => "slip",
            FaultKind::Empty => "empty",
            FaultKind::NoStream => "no_stream",
            FaultKind::OtherRate => "other_rate",
            FaultKind::Unclocked => "unclocked",
            FaultKind::SyncByte => "sync_byte",
            FaultKind::Header => "header",
            FaultKind::TransportError => "transport_error",
            FaultKind::Continuity => "continuity",
            FaultKind::CheckWord => "check_word",
            FaultKind::Excess => "excess",
            FaultKind::MainExcess => "main_excess",
            FaultKind::MultiplexingExcess => "multiplexing_excess",
            FaultKind::ElementaryExcess => "elementary_excess",
            FaultKind::SystemExcess => "system_excess",
            FaultKind::SystemMainExcess => "system_main_excess",
            FaultKind::Late => "late",
            FaultKind::ElementaryLate => "elementary_late",
            FaultKind::Ahead => "ahead",
            FaultKind::PcrRepetition => "pcr_repetition",
            FaultKind::PcrDiscontinuity => "pcr_discontinuity",
            FaultKind::PcrAccuracy => "pcr_accuracy",
            FaultKind::PtsRepetition => "pts_repetition",
            FaultKind::TableRepetition => "table_repetition",
            FaultKind::SectionDistance => "section_distance",
            FaultKind::OtherTable => "other_table",
            FaultKind::ScrambledTable => "scrambled_table",
            FaultKind::NoCat => "no_cat",
            FaultKind::NotEmpty => "not_empty",
            FaultKind::Delayed => "delayed",
            FaultKind::Unreferenced => "unreferenced",
            FaultKind::Missing => "missing",
            FaultKind::Rest => "rest",
            FaultKind::NoStamps => "no_stamps",
            FaultKind::StampJump => "stamp_jump",
            FaultKind::NoTable => "no_table",
            FaultKind::PidRepetition => "pid_repetition",
        }
    }

    /// Returns the place of a kind among all kinds.
    #[tactic(auto, unfolding(crate::specs::FaultKinds::place_of))]
    pub fn place(self) -> u8
        ensures { result ≡ spec.place_of self }
    {
        match self {
            FaultKind::Slip => 0,
            FaultKind::Empty => 1,
            FaultKind::NoStream => 2,
            FaultKind::OtherRate => 3,
            FaultKind::Unclocked => 4,
            FaultKind::SyncByte => 5,
            FaultKind::Header => 6,
            FaultKind::TransportError => 7,
            FaultKind::Continuity => 8,
            FaultKind::CheckWord => 9,
            FaultKind::Excess => 10,
            FaultKind::MainExcess => 11,
            FaultKind::MultiplexingExcess => 12,
            FaultKind::ElementaryExcess => 13,
            FaultKind::SystemExcess => 14,
            FaultKind::SystemMainExcess => 15,
            FaultKind::Late => 16,
            FaultKind::ElementaryLate => 17,
            FaultKind::Ahead => 18,
            FaultKind::PcrRepetition => 19,
            FaultKind::PcrDiscontinuity => 20,
            FaultKind::PcrAccuracy => 21,
            FaultKind::PtsRepetition => 22,
            FaultKind::TableRepetition => 23,
            FaultKind::SectionDistance => 24,
            FaultKind::OtherTable => 25,
            FaultKind::ScrambledTable => 26,
            FaultKind::NoCat => 27,
            FaultKind::NotEmpty => 28,
            FaultKind::Delayed => 29,
            FaultKind::Unreferenced => 30,
            FaultKind::Missing => 31,
            FaultKind::Rest => 32,
            FaultKind::NoStamps => 33,
            FaultKind::StampJump => 34,
            FaultKind::NoTable => 35,
            FaultKind::PidRepetition => 36,
        }
    }

    // Returns the check that each fault of a kind fails, if there is one.
    #[tactic(auto, unfolding(crate::specs::FaultKinds::check_of_kind))]
    fn check(self) -> Option<Check>
        ensures { result ≡ spec.check_of_kind self }
    {
        match self {
            FaultKind::Slip => Some(Check::SyncLoss),
            FaultKind::SyncByte => Some(Check::SyncByte),
            FaultKind::TransportError => Some(Check::Transport),
            FaultKind::Continuity => Some(Check::Continuity),
            FaultKind::CheckWord => Some(Check::Crc),
            FaultKind::Excess
            | FaultKind::MainExcess
            | FaultKind::MultiplexingExcess
            | FaultKind::ElementaryExcess
            | FaultKind::SystemExcess
            | FaultKind::SystemMainExcess
            | FaultKind::Late
            | FaultKind::ElementaryLate => Some(Check::Buffer),
            FaultKind::PcrRepetition => Some(Check::PcrRepetition),
            FaultKind::PcrDiscontinuity => Some(Check::PcrDiscontinuity),
            FaultKind::PcrAccuracy => Some(Check::PcrAccuracy),
            FaultKind::PtsRepetition => Some(Check::Pts),
            FaultKind::NoCat => Some(Check::Cat),
            FaultKind::NotEmpty => Some(Check::EmptyBuffer),
            FaultKind::Delayed => Some(Check::DataDelay),
            FaultKind::Unreferenced => Some(Check::Unreferenced),
            FaultKind::Missing | FaultKind::PidRepetition => Some(Check::Pid),
            _ => None,
        }
    }

    // Returns whether a section comes too late or too soon.
    #[tactic(auto, unfolding(crate::specs::FaultKinds::is_repetition))]
    fn is_repetition(self) -> bool
        ensures { result ≡ spec.is_repetition self }
    {
        match self {
            FaultKind::TableRepetition | FaultKind::SectionDistance => true,
            _ => false,
        }
    }
}

#[tactic(auto, unfolding(crate::specs::FaultKinds::check_of_stream))]
fn check_of_stream(kind: FaultKind, pid: u16) -> Option<Check>
    ensures { result ≡ spec.check_of_stream kind pid }
{
    match kind {
        FaultKind::ScrambledTable => Some(if pid == 0 { Check::Pat } else { Check::Pmt }),
        _ => kind.check(),
    }
}

#[tactic(auto, unfolding(crate::specs::FaultKinds::check_of_section))]
fn check_of_section(kind: FaultKind, pid: u16, table: u8) -> Option<Check>
    ensures { result ≡ spec.check_of_section kind pid table }
{
    match kind {
        FaultKind::OtherTable => Check::of_pid(pid),
        FaultKind::TableRepetition | FaultKind::SectionDistance | FaultKind::NoTable => {
            Check::of_table(table)
        }
        _ => kind.check(),
    }
}

/// Returns the check that a fault of a kind fails, by where it is, if there is one.
#[tactic(auto, unfolding(crate::specs::FaultKinds::check_of))]
pub(crate) fn check_of(kind: FaultKind, source: FaultSource) -> Option<Check>
    ensures { result ≡ spec.check_of kind source }
{
    match source {
        FaultSource::Whole | FaultSource::Program(_) => kind.check(),
        FaultSource::Stream(pid) => check_of_stream(kind, pid),
        FaultSource::Table(pid, table) => check_of_section(kind, pid, table),
    }
}

/// Returns whether a fault of a kind is a section of service information that comes too late or too soon.
#[tactic(auto, unfolding(crate::specs::FaultKinds::is_si_repetition))]
pub(crate) fn is_si_repetition(kind: FaultKind, source: FaultSource) -> bool
    ensures { result ≡ spec.is_si_repetition kind source }
{
    match source {
        FaultSource::Table(_, table) => kind.is_repetition() && table >= 0x40,
        FaultSource::Whole | FaultSource::Stream(_) | FaultSource::Program(_) => false,
    }
}
