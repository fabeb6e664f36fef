//! When packets arrive.
ghost use Rattle.std.specs.Prelude.{◌≡◌};
ghost use Rattle.ts_report.specs.Moments as spec;

use arrival::Arrival;
use clock27::Rate;
use clock27::units::BYTE_TICKS_AT_1BPS;
use es_events::clocks::first_byte;
use es_events::view_options::ViewOptions;

// Returns the time of bytes at a rate, in ticks, rounded down.
fn ticks_at(rate: Rate, byte: u64) -> u128
    ensures { result ≡ spec.ticks_at rate byte }
{
    u128::from(byte) * BYTE_TICKS_AT_1BPS / u128::from(rate.bits_per_second())
}

// Returns the moment of a byte, in ticks from the stream's first byte on, as packets arrive.
#[tactic(auto, unfolding(crate::specs::Moments::moment_by))]
fn byte_moment(options: &ViewOptions, byte: u64) -> Option<u128>
    ensures { result ≡ spec.moment_by options.now.arrival options.now.origin byte }
{
    match &options.arrival {
        Arrival::Unknown => None,
        Arrival::AtRate(rate) => Some(ticks_at(*rate, byte)),
        Arrival::OnLines(lines) => Some(u128::from(
            lines.moment(byte).saturating_sub(options.origin),
        )),
    }
}

/// Returns the moment of the first byte of the packet at an index, in ticks from the stream's first byte on, as packets
/// arrive.
pub(crate) fn moment_at(options: &ViewOptions, index: u64) -> Option<u128>
    ensures { result ≡ spec.moment_at options.now index }
{
    byte_moment(options, first_byte(index))
}

/// Returns the moment of the byte that ends the base of that packet's clock reference.
pub(crate) fn reference_moment(options: &ViewOptions, index: u64) -> Option<u128>
    ensures { result ≡ spec.reference_moment options.now index }
{
    byte_moment(options, first_byte(index).saturating_add(10))
}

/// Returns whether packets have moments.
#[tactic(auto, unfolding(crate::specs::Moments::has_moments))]
pub(crate) fn has_moments(options: &ViewOptions) -> bool
    ensures { result ≡ spec.has_moments options.now.arrival }
{
    match &options.arrival {
        Arrival::Unknown => false,
        Arrival::AtRate(_) | Arrival::OnLines(_) => true,
    }
}
