//! By what clock references and sections are measured.
ghost use Rattle.std.specs.Prelude.{◌≡◌};
ghost use Rattle.ts_report.specs.Seen as spec;

use arrival::Arrival;
use tr101290::{PcrTiming, TableTiming};

/// Returns by what the references of a stream are measured.
#[tactic(auto, unfolding(crate::specs::Seen::timing_of))]
pub(crate) fn timing_of(arrival: &Arrival) -> PcrTiming
    ensures { result ≡ spec.timing_of arrival.now }
{
    match arrival {
        Arrival::AtRate(rate) => PcrTiming::ConstantRate(*rate),
        Arrival::Unknown | Arrival::OnLines(_) => PcrTiming::References,
    }
}

/// Returns the same before the first packet; `stamps`: packets arrive by stamps.
#[tactic(auto, unfolding(crate::specs::Seen::timing_for))]
pub(crate) fn timing_for(arrival: &Arrival, stamps: bool) -> PcrTiming
    ensures { result ≡ spec.timing_for stamps arrival.now }
{
    match arrival {
        Arrival::AtRate(rate) => PcrTiming::ConstantRate(*rate),
        Arrival::Unknown | Arrival::OnLines(_) => {
            if stamps {
                PcrTiming::Stamps
            } else {
                PcrTiming::References
            }
        }
    }
}

/// Returns in what the places of sections are counted.
#[tactic(auto, unfolding(crate::specs::Seen::table_timing))]
pub(crate) fn table_timing(arrival: &Arrival) -> TableTiming
    ensures { result ≡ spec.table_timing arrival.now }
{
    match arrival {
        Arrival::AtRate(rate) => TableTiming::ConstantRate(*rate),
        Arrival::Unknown | Arrival::OnLines(_) => TableTiming::Ticks,
    }
}
