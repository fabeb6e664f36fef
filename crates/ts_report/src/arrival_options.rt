//! The options of a view, by how its packets arrive.
ghost use Rattle.std.specs.Prelude.{◌≡◌};
ghost use Rattle.ts_report.specs.Seen as spec;

use arrival::Arrival;
use es_events::view_options::ViewOptions;

// Returns the moment of the stream's first byte on the first line that is known.
#[tactic(auto, unfolding(crate::specs::Seen::origin_on))]
fn origin_on(arrival: &Arrival) -> u64
    ensures { result ≡ spec.origin_on arrival.now }
{
    match arrival {
        Arrival::OnLines(lines) => lines.moment(0),
        Arrival::Unknown | Arrival::AtRate(_) => 0,
    }
}

#[tactic(auto, unfolding(crate::specs::Seen::origin_after))]
fn origin_after(options: &ViewOptions, arrival: &Arrival) -> u64
    ensures { result ≡ spec.origin_after options.now.arrival options.now.origin arrival.now }
{
    match &options.arrival {
        Arrival::Unknown => origin_on(arrival),
        Arrival::AtRate(_) | Arrival::OnLines(_) => options.origin,
    }
}

/// Returns the options of a view whose next packets arrive in a new way.
pub(crate) fn with_arrival(options: &ViewOptions, arrival: Arrival) -> ViewOptions
    ensures { result ≡ spec.with_arrival options.now arrival }
{
    ViewOptions {
        arrival,
        origin: origin_after(options, &arrival),
        ..*options
    }
}

/// Returns whether packets have no moment.
#[tactic(auto, unfolding(crate::specs::Seen::unclocked))]
pub(crate) fn unclocked(arrival: &Arrival, count: usize) -> bool
    ensures { result ≡ spec.unclocked arrival.now count }
{
    match arrival {
        Arrival::Unknown => count > 0,
        Arrival::AtRate(_) | Arrival::OnLines(_) => false,
    }
}
