//! Whether a service or an event is running (EN 300 468, 5.2.3, table 6).

ghost use Rattle.std.specs.Prelude.{◌≡◌, ◌<◌};

/// running_status: three bits.
#[derive(Clone, Copy, PartialEq, Eq)]
pub enum RunningStatus {
    Undefined,
    NotRunning,
    /// In a few seconds, for example for recording.
    StartsSoon,
    Pausing,
    Running,
    OffAir,
    Reserved6,
    Reserved7,
}

impl RunningStatus {
    ghost use Rattle.dvb_tables.specs.RunningStates.{status_code, status_of};

    /// Returns the three bits.
    pub fn code(self) -> u8
        ensures bits { result ≡ status_code self }
        ensures three { result < 8 }
    {
        match self {
            RunningStatus::Undefined => 0,
            RunningStatus::NotRunning => 1,
            RunningStatus::StartsSoon => 2,
            RunningStatus::Pausing => 3,
            RunningStatus::Running => 4,
            RunningStatus::OffAir => 5,
            RunningStatus::Reserved6 => 6,
            RunningStatus::Reserved7 => 7,
        }
    }

    /// Returns the status of three bits.
    pub fn of_code(code: u8) -> Self
        requires { code < 8 }
        ensures { result ≡ status_of code }
    {
        match code {
            0 => RunningStatus::Undefined,
            1 => RunningStatus::NotRunning,
            2 => RunningStatus::StartsSoon,
            3 => RunningStatus::Pausing,
            4 => RunningStatus::Running,
            5 => RunningStatus::OffAir,
            6 => RunningStatus::Reserved6,
            _ => RunningStatus::Reserved7,
        }
    }
}
