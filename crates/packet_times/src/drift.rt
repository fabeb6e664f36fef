//! The drift of the program clock of a PID from the arrival clock.
ghost use Rattle.std.specs.Prelude.{◌≡◌};
ghost use Rattle.packet_times.specs.ClockDrifts as spec;

use arrival::ClockStep;

/// What the clock references of a PID say of its program clock since it began, or began again.
#[derive(Clone, Copy)]
pub struct ClockDrift {
    /// The moment at which the first of the references arrives, in ticks.
    pub begin: u128,
    /// The ticks of the program clock from the first reference to the last.
    pub ticks: u64,
    /// The ticks from the arrival of the first reference to the arrival of the last.
    pub arrived: u128,
}

// Begins a clock with a reference that arrives at a moment.
fn begun(moment: u128) -> ClockDrift
    ensures { result ≡ spec.begun moment }
{
    ClockDrift {
        begin: moment,
        ticks: 0,
        arrived: 0,
    }
}

// Takes a reference that arrives at a moment, `ticks` of the clock after the reference before it.
fn continued(drift: ClockDrift, ticks: u64, moment: u128) -> ClockDrift
    ensures { result ≡ spec.continued drift ticks moment }
{
    ClockDrift {
        begin: drift.begin,
        ticks: drift.ticks.saturating_add(ticks),
        arrived: moment.saturating_sub(drift.begin),
    }
}

// Returns the same, if the clock was known before.
#[tactic(auto, unfolding(crate::specs::ClockDrifts::on_line))]
fn on_line(drift: Option<ClockDrift>, ticks: u64, moment: u128) -> ClockDrift
    ensures { result ≡ spec.on_line drift ticks moment }
{
    match drift {
        None => begun(moment),
        Some(drift) => continued(drift, ticks, moment),
    }
}

// Takes a reference that arrives at a moment.
#[tactic(auto, unfolding(crate::specs::ClockDrifts::drift_at))]
fn drift_at(drift: Option<ClockDrift>, step: &ClockStep, moment: u128) -> ClockDrift
    ensures { result ≡ spec.drift_at drift step.now moment }
{
    match step {
        ClockStep::GoesOn(line) => on_line(drift, line.ticks, moment),
        ClockStep::First | ClockStep::Announced | ClockStep::Jump(_) => begun(moment),
    }
}

/// Returns the drift after a reference; it is not known if the reference has no moment.
#[tactic(auto, unfolding(crate::specs::ClockDrifts::drift_after))]
pub(crate) fn drift_after(
    drift: Option<ClockDrift>,
    step: &ClockStep,
    moment: Option<u128>,
) -> Option<ClockDrift>
    ensures { result ≡ spec.drift_after drift step.now moment }
{
    match moment {
        None => None,
        Some(moment) => Some(drift_at(drift, step, moment)),
    }
}

/// Returns by how many ticks the program clock is ahead of the arrival; 0 if it is not ahead.
#[tactic(auto, unfolding(crate::specs::ClockDrifts::ahead_of))]
pub(crate) fn ahead_of(drift: Option<ClockDrift>) -> u128
    ensures { result ≡ spec.ahead_of drift }
{
    match drift {
        None => 0,
        Some(drift) => u128::from(drift.ticks).saturating_sub(drift.arrived),
    }
}

/// Returns by how many ticks the program clock is behind the arrival; 0 if it is not behind.
#[tactic(auto, unfolding(crate::specs::ClockDrifts::behind_of))]
pub(crate) fn behind_of(drift: Option<ClockDrift>) -> u128
    ensures { result ≡ spec.behind_of drift }
{
    match drift {
        None => 0,
        Some(drift) => drift.arrived.saturating_sub(u128::from(drift.ticks)),
    }
}
