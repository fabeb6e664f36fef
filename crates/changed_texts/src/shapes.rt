//! Whether each section of new texts has its place on air.

ghost use Rattle.std.specs.Prelude.{◌≡◌, find, nat_le, not};
ghost use Rattle.std.specs.List.{list_all, range_with_len, zip};
ghost use Rattle.description_parts.specs.Tables.{packets_of_section, table_count};
ghost use Rattle.changed_texts.specs.TextFaults as spec;

use crate::fault::TextFault;
use description::Description;

// Returns the packets of a section of that length.
fn packets(length: u16) -> usize
    ensures { result ≡ packets_of_section length }
{
    (1 + usize::from(length)).div_ceil(184)
}

// Returns whether each section takes no more packets than its place has, as far as both lists go.
fn has_short(places: &[u16], lengths: &[u16]) -> bool
    ensures { result ≡ list_all (λ p. nat_le (packets_of_section p.1) (packets_of_section p.0))
        (zip places.now lengths.now) }
{
    places
        .iter()
        .zip(lengths)
        .all(|(place, length)| packets(*length) <= packets(*place))
}

fn has_place(places: &[u16], lengths: &[u16]) -> bool
    ensures { result ≡ spec.has_place places.now lengths.now }
{
    places.len() == lengths.len() && has_short(places, lengths)
}

// Returns whether a table has as many sections as the frame's, and each its place.
fn keeps_shape(frame: &Description, texts: &Description, table: usize) -> bool
    ensures { result ≡ spec.keeps_shape frame.now texts.now table }
{
    has_place(
        frame.section_lengths(table).as_slice(),
        texts.section_lengths(table).as_slice(),
    )
}

// Returns the number of the first table whose sections have no place.
fn first_misfit(frame: &Description, texts: &Description) -> Option<usize>
    ensures { result ≡ find (λ t. not (spec.keeps_shape frame.now texts.now t))
        (range_with_len 0 (table_count frame.now)) }
{
    (0..frame.tables()).find(|table| !keeps_shape(frame, texts, *table))
}

/// Returns the first table of the frame whose sections have no place.
pub fn shape_fault(frame: &Description, texts: &Description) -> Option<TextFault>
    ensures { result ≡ spec.shape_fault frame.now texts.now }
{
    first_misfit(frame, texts).map(TextFault::Shape)
}
