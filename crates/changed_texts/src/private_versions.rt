//! Whether a private section changes under its version.

ghost use Rattle.std.specs.Prelude.{◌≡◌, true, find};
ghost use Rattle.std.specs.List.{list_any, range_with_len};
ghost use Rattle.description_parts.specs.Tables.{table_count};
ghost use Rattle.changed_texts.specs.TextFaults as spec;

use crate::fault::TextFault;
use description::Description;
use description_parts::TableKind;
use description_values::PrivateSection;

// Returns whether a section is in the long form.
fn is_long(section: &[u8]) -> bool
    ensures { result ≡ spec.is_long section.now }
{
    section.len() >= 8 && section[1] >= 128
}

// Returns whether two sections in the long form have one table, version and number.
fn is_same_name(one: &[u8], other: &[u8]) -> bool
    requires long { spec.is_long one.now ≡ true }
    requires other_long { spec.is_long other.now ≡ true }
    ensures { result ≡ spec.is_same_name one.now other.now }
{
    one[0] == other[0]
        && one[3] == other[3]
        && one[4] == other[4]
        && one[5] % 64 == other[5] % 64
        && one[6] == other[6]
}

// Returns whether two sections differ and have one name.
fn contradicts(one: &[u8], other: &[u8]) -> bool
    ensures { result ≡ spec.contradicts one.now other.now }
{
    is_long(one) && is_long(other) && is_same_name(one, other) && one != other
}

fn contradicts_one(section: &PrivateSection, others: &[PrivateSection]) -> bool
    ensures { result ≡ list_any (spec.contradicts section.now) others.now }
{
    others
        .iter()
        .any(|other| contradicts(section.as_bytes(), other.as_bytes()))
}

fn has_contradiction(olds: &[PrivateSection], news: &[PrivateSection]) -> bool
    ensures { result ≡ spec.has_contradiction olds.now news.now }
{
    news.iter().any(|section| contradicts_one(section, olds))
}

// Returns the sections of a table, if it is a private one.
fn private_sections(description: &Description, table: usize) -> &[PrivateSection]
    ensures { result.now ≡ spec.private_sections description.now table }
{
    match description.kind(table) {
        Some(TableKind::Private(place)) => match description.private_tables().get(place) {
            None => &[],
            Some(table) => table.sections(),
        },
        _ => &[],
    }
}

fn breaks_version(now: &Description, texts: &Description, table: usize) -> bool
    ensures { result ≡ spec.breaks_version now.now texts.now table }
{
    has_contradiction(private_sections(now, table), private_sections(texts, table))
}

// Returns the number of the first table with a section that differs.
fn first_break(now: &Description, texts: &Description) -> Option<usize>
    ensures { result ≡ find (λ t. spec.breaks_version now.now texts.now t) (range_with_len 0 (table_count texts.now)) }
{
    (0..texts.tables()).find(|table| breaks_version(now, texts, *table))
}

/// Returns the first private table with a section that differs from the one in force of its version.
pub fn version_fault(now: &Description, texts: &Description) -> Option<TextFault>
    ensures { result ≡ spec.version_fault now.now texts.now }
{
    first_break(now, texts).map(TextFault::Private)
}
