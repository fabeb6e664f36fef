//! The versions of a line-up that takes the place of another.

ghost use Rattle.std.specs.Prelude.{◌≡◌, ℕ, ◌<◌, IfSome, false, length, slice_index_or};
ghost use Rattle.description.specs.SubTables.{numbered_sub_table, sub_table_count, sub_table_number};
ghost use Rattle.line_ups.specs.Versions as spec;

use crate::shapes::program_before;
use arrayvec::ArrayVec;
use changed_texts::set_counts;
use description::SubTable;
use slot_plan::Description;

// Returns the sub-table that a sub-table of the new description was.
fn sub_table_before(old: &Description, new: &Description, sub_table: SubTable) -> Option<SubTable>
    ensures value { result ≡ spec.sub_table_before old.now new.now sub_table }
    ensures numbered { IfSome result (λ x. sub_table_number x < sub_table_count) }
{
    match sub_table {
        SubTable::Map(place) => match program_before(old, new, place) {
            None => None,
            Some(before) => Some(SubTable::Map(before)),
        },
        SubTable::Events(place) => match program_before(old, new, place) {
            None => None,
            Some(before) => Some(SubTable::Events(before)),
        },
        other => Some(other),
    }
}

// Returns the number with which the new sub-table shows the version that the old one shows.
fn followed_count(
    old: &Description,
    before: SubTable,
    new: &Description,
    sub_table: SubTable,
    moment: u64,
) -> u8
    ensures value { result ≡ spec.followed_count old.now before new.now sub_table moment }
    ensures five_bits { result < 32 }
{
    let shown = old.version(before, moment);
    (shown + new.count(sub_table) + 32 - new.version(sub_table, moment)) % 32
}

// Returns the number of a sub-table of the new description that follows a sub-table of the old one.
fn follows(
    old: &Description,
    before: SubTable,
    new: &Description,
    sub_table: SubTable,
    moment: u64,
    sent: &[bool; 131],
) -> u8
    requires { sub_table_number before < sub_table_count }
    ensures { result ≡ spec.follows old.now before new.now sub_table moment (λ n. slice_index_or sent.now n false) }
{
    let count = followed_count(old, before, new, sub_table, moment);
    if old.says_same(before, new, sub_table, moment) || !sent[before.number()] {
        count
    } else {
        (count + 1) % 32
    }
}

// Returns the number of a sub-table of the new description.
fn count_after(
    old: &Description,
    new: &Description,
    moment: u64,
    sent: &[bool; 131],
    number: usize,
) -> u8
    requires { number < sub_table_count }
    ensures { result ≡ spec.count_after old.now new.now moment (λ n. slice_index_or sent.now n false)
        (numbered_sub_table number) }
{
    let sub_table = SubTable::numbered(number);
    match sub_table_before(old, new, sub_table) {
        None => new.count(sub_table),
        Some(before) => follows(old, before, new, sub_table, moment, sent),
    }
}

// Returns the numbers of all sub-tables.
#[tactic(auto, using(changed_texts::proofs::NextTexts::has_room, changed_texts::proofs::NextTexts::one_more, changed_texts::proofs::NextTexts::each_one, changed_texts::proofs::NextTexts::as_many))]
fn counts_after(
    old: &Description,
    new: &Description,
    moment: u64,
    sent: &[bool; 131],
) -> ArrayVec<u8, 131>
    ensures value { (n : ℕ) → n < sub_table_count → slice_index_or result.items n 0
        ≡ spec.count_after old.now new.now moment (λ i. slice_index_or sent.now i false) (numbered_sub_table n) }
    ensures five_bits { (n : ℕ) → slice_index_or result.items n 0 < 32 }
    ensures each { length result.items ≡ sub_table_count }
{
    new.keeps_ranges();
    let mut counts = ArrayVec::new();
    for number in 0..131 {
        counts.push(count_after(old, new, moment, sent, number));
    }
    counts
}

/// Returns the new description with versions that follow those of the texts on air. `sent` says of which sub-tables of
/// these a section was sent since they changed last.
pub fn follow_versions(
    old: &Description,
    mut new: Description,
    moment: u64,
    sent: &[bool; 131],
) -> Description
    ensures { result ≡ spec.follow_versions old.now new moment (λ n. slice_index_or sent.now n false) }
{
    let counts = counts_after(old, &new, moment, sent);
    set_counts(&mut new, counts.as_slice());
    new
}
