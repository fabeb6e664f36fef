//! What two descriptions have to have alike, so that one has only other texts than the other.

ghost use Rattle.std.specs.Prelude.{◌≡◌, slice_get, bytes_eq};
ghost use Rattle.changed_texts.specs.Fixed as spec;
ghost use Rattle.changed_texts.specs.Fixed.{is_same_option, first_difference};

use description_parts::{PrivateTable, ProgramDescription, StreamDescription};
use unit_timing::allowance::Allowance;
use unit_timing::framing::{FrameDeclaration, LastBytes};
use unit_timing::multiplexing_buffer::MultiplexingBuffer;

/// Returns whether two programs are alike but for their texts.
pub fn is_same_program(one: &ProgramDescription, other: &ProgramDescription) -> bool
    ensures { result ≡ spec.is_same_program one.now other.now }
{
    one.number() == other.number()
        && one.pmt_pid() == other.pmt_pid()
        && one.pcr_pid() == other.pcr_pid()
        && one.has_clock() == other.has_clock()
        && one.pcr_limit() == other.pcr_limit()
}

fn is_same_allowance(one: Allowance, other: Allowance) -> bool
    ensures { result ≡ spec.is_same_allowance one other }
{
    match (one, other) {
        (
            Allowance::Groups { units, packets },
            Allowance::Groups {
                units: more,
                packets: most,
            },
        ) => units == more && packets == most,
        (
            Allowance::Pace { burst, pace },
            Allowance::Pace {
                burst: more,
                pace: most,
            },
        ) => burst == more && pace == most,
        _ => false,
    }
}

fn is_same_buffer(one: MultiplexingBuffer, other: MultiplexingBuffer) -> bool
    ensures { result ≡ spec.is_same_buffer one other }
{
    one.rbx == other.rbx && one.size == other.size
}

fn are_same_buffers(one: Option<MultiplexingBuffer>, other: Option<MultiplexingBuffer>) -> bool
    ensures { result ≡ is_same_option spec.is_same_buffer one other }
{
    match (one, other) {
        (None, None) => true,
        (Some(one), Some(other)) => is_same_buffer(one, other),
        _ => false,
    }
}

fn are_same_sums(one: &[u32], other: &[u32]) -> bool
    ensures { result ≡ bytes_eq one.now other.now }
{
    one == other
}

fn is_same_left(one: LastBytes, other: LastBytes) -> bool
    ensures { result ≡ spec.is_same_left one other }
{
    match (one, other) {
        (LastBytes::Each(bytes), LastBytes::Each(most)) => bytes == most,
        (LastBytes::Sums(sums), LastBytes::Sums(most)) => are_same_sums(&sums, &most),
        _ => false,
    }
}

fn is_same_framing(one: FrameDeclaration, other: FrameDeclaration) -> bool
    ensures { result ≡ spec.is_same_framing one other }
{
    one.frames == other.frames
        && one.frame == other.frame
        && one.rest == other.rest
        && is_same_left(one.left, other.left)
}

fn are_same_framings(one: Option<FrameDeclaration>, other: Option<FrameDeclaration>) -> bool
    ensures { result ≡ is_same_option spec.is_same_framing one other }
{
    match (one, other) {
        (None, None) => true,
        (Some(one), Some(other)) => is_same_framing(one, other),
        _ => false,
    }
}

// Returns whether two streams have units at the same places and times.
fn is_same_pace(one: &StreamDescription, other: &StreamDescription) -> bool
    ensures { result ≡ spec.is_same_pace one.now other.now }
{
    one.program == other.program
        && one.pid == other.pid
        && one.stream_id == other.stream_id
        && one.interval == other.interval
        && one.lead == other.lead
        && one.pts_limit == other.pts_limit
}

// Returns whether two streams have units of the same sizes, into the same buffers.
fn is_same_size(one: &StreamDescription, other: &StreamDescription) -> bool
    ensures { result ≡ spec.is_same_size one.now other.now }
{
    one.size == other.size
        && one.rx == other.rx
        && one.main == other.main
        && is_same_allowance(one.allowance, other.allowance)
        && are_same_buffers(one.multiplexing, other.multiplexing)
        && are_same_framings(one.framing, other.framing)
}

/// Returns whether two streams are alike but for their texts.
pub fn is_same_stream(one: &StreamDescription, other: &StreamDescription) -> bool
    ensures { result ≡ spec.is_same_stream one.now other.now }
{
    is_same_pace(one, other) && is_same_size(one, other)
}

/// Returns whether two private tables are alike but for their sections.
pub fn is_same_table(one: &PrivateTable, other: &PrivateTable) -> bool
    ensures { result ≡ spec.is_same_table one.now other.now }
{
    one.pid() == other.pid() && one.limit() == other.limit()
}

fn has_program(ones: &[ProgramDescription], others: &[ProgramDescription], place: usize) -> bool
    ensures { result ≡ is_same_option spec.is_same_program (slice_get ones.now place) (slice_get others.now place) }
{
    match (ones.get(place), others.get(place)) {
        (None, None) => true,
        (Some(one), Some(other)) => is_same_program(one, other),
        _ => false,
    }
}

/// Returns the first place at which two lists of programs are not alike but for their texts.
pub fn program_difference(
    ones: &[ProgramDescription],
    others: &[ProgramDescription],
) -> Option<usize>
    ensures { result ≡ first_difference spec.is_same_program ones.now others.now }
{
    (0..ones.len().max(others.len())).find(|place| !has_program(ones, others, *place))
}

fn has_stream(ones: &[StreamDescription], others: &[StreamDescription], place: usize) -> bool
    ensures { result ≡ is_same_option spec.is_same_stream (slice_get ones.now place) (slice_get others.now place) }
{
    match (ones.get(place), others.get(place)) {
        (None, None) => true,
        (Some(one), Some(other)) => is_same_stream(one, other),
        _ => false,
    }
}

/// Returns the first place at which two lists of streams are not alike but for their texts.
pub fn stream_difference(ones: &[StreamDescription], others: &[StreamDescription]) -> Option<usize>
    ensures { result ≡ first_difference spec.is_same_stream ones.now others.now }
{
    (0..ones.len().max(others.len())).find(|place| !has_stream(ones, others, *place))
}

fn has_table(ones: &[PrivateTable], others: &[PrivateTable], place: usize) -> bool
    ensures { result ≡ is_same_option spec.is_same_table (slice_get ones.now place) (slice_get others.now place) }
{
    match (ones.get(place), others.get(place)) {
        (None, None) => true,
        (Some(one), Some(other)) => is_same_table(one, other),
        _ => false,
    }
}

/// Returns the first place at which two lists of private tables are not alike but for their sections.
pub fn table_difference(ones: &[PrivateTable], others: &[PrivateTable]) -> Option<usize>
    ensures { result ≡ first_difference spec.is_same_table ones.now others.now }
{
    (0..ones.len().max(others.len())).find(|place| !has_table(ones, others, *place))
}
