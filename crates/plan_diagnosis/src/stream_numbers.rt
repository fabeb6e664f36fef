//! The numbers of a stream that can be too small for any plan, or for one.

ghost use Rattle.std.specs.Prelude.{◌≡◌, ◌++◌, OnOk, option_map, string_bytes};
ghost use Rattle.plan_diagnosis.specs.ReasonLines as spec;

use crate::item_names::write_name_of_stream;
use crate::least_values::write_less;
use description_parts::StreamDescription;
use std::alloc::AllocError;
use unit_timing::allowance::Allowance;
use unit_timing::multiplexing_buffer::MultiplexingBuffer;

/// The greatest lead, in units of 90 kHz.
pub const GREATEST_LEAD: u128 = 90_000;

/// A number of a stream.
#[derive(Clone, Copy)]
pub enum StreamNumber {
    /// The drain of its transport buffer, in bits a second.
    Rx,
    /// The leak of its multiplexing buffer, in bits a second.
    Rbx,
    /// The time before a unit's DTS when it is sent, in units of 90 kHz.
    Lead,
    /// The size of its main buffer, in bytes.
    Main,
}

/// Returns the key of a number.
#[tactic(auto, unfolding(crate::specs::ReasonLines::key_of))]
pub fn key_of(number: StreamNumber) -> &'static str
    ensures { result.now ≡ spec.key_of number }
{
    match number {
        StreamNumber::Rx => "rx",
        StreamNumber::Rbx => "rbx",
        StreamNumber::Lead => "lead",
        StreamNumber::Main => "main",
    }
}

// Returns the rate of a leak; 0 if there is none.
fn rbx_of(multiplexing: Option<MultiplexingBuffer>) -> u128
    ensures { result ≡ spec.rbx_of multiplexing }
{
    match multiplexing {
        None => 0,
        Some(buffer) => u128::from(buffer.rbx),
    }
}

// Returns the value of a number.
fn value_of(number: StreamNumber, stream: &StreamDescription) -> u128
    ensures { result ≡ spec.value_of number stream.now }
{
    match number {
        StreamNumber::Rx => u128::from(stream.rx),
        StreamNumber::Rbx => rbx_of(stream.multiplexing),
        StreamNumber::Lead => u128::from(stream.lead),
        StreamNumber::Main => u128::from(stream.main),
    }
}

// Returns the greatest value that a number may have.
fn greatest_of(number: StreamNumber) -> u128
    ensures { result ≡ spec.greatest_of number }
{
    match number {
        StreamNumber::Rx | StreamNumber::Rbx => 200_000_000,
        StreamNumber::Lead => GREATEST_LEAD,
        StreamNumber::Main => 10_000_000,
    }
}

/// Returns what makes units ask for slots and for a drain in the long run.
#[tactic(auto, unfolding(crate::specs::ReasonLines::steady_cause))]
pub fn steady_cause(allowance: Allowance) -> &'static str
    ensures { result.now ≡ spec.steady_cause allowance }
{
    match allowance {
        Allowance::Groups { units: 1, .. } => " for its size and interval\n",
        Allowance::Groups { .. } => " for its group_packets and interval\n",
        Allowance::Pace { .. } => " for its pace\n",
    }
}

// Returns the words for the numbers that make units ask for slots at once.
#[tactic(auto, unfolding(crate::specs::ReasonLines::row_cause))]
fn row_cause(allowance: Allowance) -> &'static str
    ensures { result.now ≡ spec.row_cause allowance }
{
    match allowance {
        Allowance::Groups { units: 1, .. } => " for its size\n",
        Allowance::Groups { .. } => " for its group_packets\n",
        Allowance::Pace { .. } => " for its burst_packets\n",
    }
}

// Returns the words for the units within the lead as the cause.
#[tactic(auto, unfolding(crate::specs::ReasonLines::within_lead_cause))]
fn within_lead_cause() -> &'static str
    ensures { result.now ≡ spec.within_lead_cause }
{
    " for what comes within its lead\n"
}

// Returns the words for the cause that asks for a greater number.
fn cause_of(number: StreamNumber, allowance: Allowance) -> &'static str
    ensures { result.now ≡ spec.cause_of number allowance }
{
    match number {
        StreamNumber::Rx | StreamNumber::Rbx => steady_cause(allowance),
        StreamNumber::Lead => row_cause(allowance),
        StreamNumber::Main => within_lead_cause(),
    }
}

/// Appends the line of a number that is too small, with the least that would do.
#[tactic(auto, unfolding(crate::specs::ReasonLines::stream_line))]
pub fn write_stream(
    number: StreamNumber,
    item: usize,
    least: u128,
    stream: Option<&StreamDescription>,
    text: &mut String,
) -> Result<(), AllocError>
    ensures { OnOk result (string_bytes text.new ≡ string_bytes text.old
        ++ spec.stream_line number item least (option_map (λ s. s.now) stream.entry)) }
{
    let Some(stream) = stream else {
        return Ok(());
    };
    let (key, value) = (key_of(number), value_of(number, stream));
    let (greatest, cause) = (greatest_of(number), cause_of(number, stream.allowance));
    write_name_of_stream(item, Some(stream), text)?;
    write_less(key, value, least, greatest, cause, text)
}
