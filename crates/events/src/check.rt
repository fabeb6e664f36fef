//! The checks of ETSI TR 101 290 (5.2.1 to 5.2.3) that are made of a stream.
ghost use Rattle.std.specs.Prelude.{◌≡◌};
ghost use Rattle.events.specs.Checks as spec;

/// A check, by its number in ETSI TR 101 290.
#[derive(Clone, Copy)]
pub enum Check {
    /// 1.1 TS_sync_loss
    SyncLoss,
    /// 1.2 Sync_byte_error
    SyncByte,
    /// 1.3.a PAT_error_2
    Pat,
    /// 1.4 Continuity_count_error
    Continuity,
    /// 1.5.a PMT_error_2
    Pmt,
    /// 1.6 PID_error
    Pid,
    /// 2.1 Transport_error
    Transport,
    /// 2.2 CRC_error
    Crc,
    /// 2.3.a PCR_repetition_error
    PcrRepetition,
    /// 2.3.b PCR_discontinuity_indicator_error
    PcrDiscontinuity,
    /// 2.4 PCR_accuracy_error
    PcrAccuracy,
    /// 2.5 PTS_error
    Pts,
    /// 2.6 CAT_error
    Cat,
    /// 3.1.a NIT_actual_error
    NitActual,
    /// 3.1.b NIT_other_error
    NitOther,
    /// 3.2 SI_repetition_error
    SiRepetition,
    /// 3.3 Buffer_error
    Buffer,
    /// 3.4 Unreferenced_PID
    Unreferenced,
    /// 3.5.a SDT_actual_error
    SdtActual,
    /// 3.5.b SDT_other_error
    SdtOther,
    /// 3.6.a EIT_actual_error
    EitActual,
    /// 3.6.b EIT_other_error
    EitOther,
    /// 3.7 RST_error
    Rst,
    /// 3.8 TDT_error
    Tdt,
    /// 3.9 Empty_buffer_error
    EmptyBuffer,
    /// 3.10 Data_delay_error
    DataDelay,
}

impl Check {
    /// Returns the number of a check.
    #[tactic(auto, unfolding(crate::specs::Checks::number_of))]
    pub fn number(self) -> &'static str
        ensures { result.now ≡ spec.number_of self }
    {
        match self {
            Check::SyncLoss => "1.1",
            Check::SyncByte => "1.2",
            Check::Pat => "1.3.a",
            Check::Continuity => "1.4",
            Check::Pmt => "1.5.a",
            Check::Pid => "1.6",
            Check::Transport => "2.1",
            Check::Crc => "2.2",
            Check::PcrRepetition => "2.3.a",
            Check::PcrDiscontinuity => "2.3.b",
            Check::PcrAccuracy => "2.4",
            Check::Pts => "2.5",
            Check::Cat => "2.6",
            Check::NitActual => "3.1.a",
            Check::NitOther => "3.1.b",
            Check::SiRepetition => "3.2",
            Check::Buffer => "3.3",
            Check::Unreferenced => "3.4",
            Check::SdtActual => "3.5.a",
            Check::SdtOther => "3.5.b",
            Check::EitActual => "3.6.a",
            Check::EitOther => "3.6.b",
            Check::Rst => "3.7",
            Check::Tdt => "3.8",
            Check::EmptyBuffer => "3.9",
            Check::DataDelay => "3.10",
        }
    }

    /// Returns the name of a check.
    #[tactic(auto, unfolding(crate::specs::Checks::name_of))]
    pub fn name(self) -> &'static str
        ensures { result.now ≡ spec.name_of self }
    {
        match self {
            Check::SyncLoss => "TS_sync_loss",
            Check::SyncByte => "Sync_byte_error",
            Check::Pat => "PAT_error_2",
            Check::Continuity => "Continuity_count_error",
            Check::Pmt => "PMT_error_2",
            Check::Pid => "PID_error",
            Check::Transport => "Transport_error",
            Check::Crc => "CRC_error",
            Check::PcrRepetition => "PCR_repetition_error",
            Check::PcrDiscontinuity => "PCR_discontinuity_indicator_error",
            Check::PcrAccuracy => "PCR_accuracy_error",
            Check::Pts => "PTS_error",
            Check::Cat => "CAT_error",
            Check::NitActual => "NIT_actual_error",
            Check::NitOther => "NIT_other_error",
            Check::SiRepetition => "SI_repetition_error",
            Check::Buffer => "Buffer_error",
            Check::Unreferenced => "Unreferenced_PID",
            Check::SdtActual => "SDT_actual_error",
            Check::SdtOther => "SDT_other_error",
            Check::EitActual => "EIT_actual_error",
            Check::EitOther => "EIT_other_error",
            Check::Rst => "RST_error",
            Check::Tdt => "TDT_error",
            Check::EmptyBuffer => "Empty_buffer_error",
            Check::DataDelay => "Data_delay_error",
        }
    }

    // Returns the place of a check among all checks.
    #[tactic(auto, unfolding(crate::specs::Checks::place_of))]
    pub(crate) fn place(self) -> u8
        ensures { result ≡ spec.place_of self }
    {
        match self {
            Check::SyncLoss => 0,
            Check::SyncByte => 1,
            Check::Pat => 2,
            Check::Continuity => 3,
            Check::Pmt => 4,
            Check::Pid => 5,
            Check::Transport => 6,
            Check::Crc => 7,
            Check::PcrRepetition => 8,
            Check::PcrDiscontinuity => 9,
            Check::PcrAccuracy => 10,
            Check::Pts => 11,
            Check::Cat => 12,
            Check::NitActual => 13,
            Check::NitOther => 14,
            Check::SiRepetition => 15,
            Check::Buffer => 16,
            Check::Unreferenced => 17,
            Check::SdtActual => 18,
            Check::SdtOther => 19,
            Check::EitActual => 20,
            Check::EitOther => 21,
            Check::Rst => 22,
            Check::Tdt => 23,
            Check::EmptyBuffer => 24,
            Check::DataDelay => 25,
        }
    }

    /// Returns the check that a section fails that comes too late or too soon, by its table_id.
    pub fn of_table(table_id: u8) -> Option<Check>
        ensures { result ≡ spec.check_of_table table_id }
    {
        match table_id {
            0x00 => Some(Check::Pat),
            0x02 => Some(Check::Pmt),
            0x40 => Some(Check::NitActual),
            0x41 => Some(Check::NitOther),
            0x42 => Some(Check::SdtActual),
            0x46 => Some(Check::SdtOther),
            0x4e => Some(Check::EitActual),
            0x4f => Some(Check::EitOther),
            0x70 => Some(Check::Tdt),
            0x71 => Some(Check::Rst),
            _ => None,
        }
    }

    /// Returns the check that a section of another table fails on the PID of a table.
    pub fn of_pid(pid: u16) -> Option<Check>
        ensures { result ≡ spec.check_of_pid pid }
    {
        match pid {
            0 => Some(Check::Pat),
            1 => Some(Check::Cat),
            16 => Some(Check::NitActual),
            17 => Some(Check::SdtActual),
            18 => Some(Check::EitActual),
            19 => Some(Check::Rst),
            20 => Some(Check::Tdt),
            _ => None,
        }
    }
}
