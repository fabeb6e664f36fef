//! The clock of a program's time stamps.

ghost use Rattle.std.specs.Prelude.{◌≡◌};
ghost use Rattle.job_programs.specs.ProgramClocks as spec;

/// PCR_PID of a program without clock references.
const NO_REFERENCES: u16 = 0x1fff;

/// The clock of a program.
#[derive(Clone, Copy)]
pub enum ProgramClock {
    /// The clock by the PCRs on this PID.
    References(u16),
    /// A clock of the program's own: the program of this number has no PCRs.
    Own(u16),
}

/// Returns the clock of a program whose PMT has this PCR_PID.
#[tactic(auto, unfolding(crate::specs::ProgramClocks::clock_by))]
pub(crate) fn clock_by(number: u16, pcr_pid: u16) -> ProgramClock
    ensures { result ≡ spec.clock_by number pcr_pid }
{
    if pcr_pid == NO_REFERENCES {
        ProgramClock::Own(number)
    } else {
        ProgramClock::References(pcr_pid)
    }
}

/// Returns whether two are one.
#[tactic(auto, unfolding(crate::specs::ProgramClocks::is_same_clock))]
pub fn is_same_clock(one: ProgramClock, other: ProgramClock) -> bool
    ensures { result ≡ spec.is_same_clock one other }
{
    match (one, other) {
        (ProgramClock::References(one), ProgramClock::References(other)) => one == other,
        (ProgramClock::Own(one), ProgramClock::Own(other)) => one == other,
        _ => false,
    }
}

/// Returns whether the references of a clock are on this PID.
#[tactic(auto, unfolding(crate::specs::ProgramClocks::is_clock_on))]
pub fn is_clock_on(pid: u16, clock: ProgramClock) -> bool
    ensures { result ≡ spec.is_clock_on pid clock }
{
    match clock {
        ProgramClock::References(other) => other == pid,
        ProgramClock::Own(_) => false,
    }
}
