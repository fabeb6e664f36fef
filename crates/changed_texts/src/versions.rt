//! The version of each sub-table of new texts.

ghost use Rattle.std.specs.Prelude.{◌≡◌, ◌<◌, ℕ, false, length, slice_index_or};
ghost use Rattle.description.specs.SubTables.{numbered_sub_table, sub_table_count};
ghost use Rattle.changed_texts.specs.Versions as spec;

use arrayvec::ArrayVec;
use description::{Description, SubTable};

// Returns the number with which the new texts show the version that the old ones show.
fn kept_count(now: &Description, texts: &Description, sub_table: SubTable, moment: u64) -> u8
    ensures value { result ≡ spec.kept_count now.now texts.now sub_table moment }
    ensures five_bits { result < 32 }
{
    let shown = now.version(sub_table, moment);
    (shown + texts.count(sub_table) + 32 - texts.version(sub_table, moment)) % 32
}

// Returns the next number of a sub-table: one more if what it says changes and a section of it was sent.
#[tactic(auto, using(crate::proofs::Counts::number_numbered))]
fn next_count(
    now: &Description,
    texts: &Description,
    number: usize,
    moment: u64,
    sent: &[bool; 131],
) -> u8
    requires { number < sub_table_count }
    ensures value { result ≡ spec.next_count now.now texts.now (numbered_sub_table number) moment
        (λ n. slice_index_or sent.now n false) }
    ensures five_bits { result < 32 }
{
    let sub_table = SubTable::numbered(number);
    let kept = kept_count(now, texts, sub_table, moment);
    if now.shows_same(texts, sub_table, moment) || !sent[number] {
        kept
    } else {
        (kept + 1) % 32
    }
}

// Returns the next numbers of the sub-tables.
#[tactic(auto, using(crate::proofs::NextTexts::has_room, crate::proofs::NextTexts::one_more, crate::proofs::NextTexts::each_one, crate::proofs::NextTexts::as_many))]
fn next_counts(
    now: &Description,
    texts: &Description,
    moment: u64,
    sent: &[bool; 131],
) -> ArrayVec<u8, 131>
    ensures value { (n : ℕ) → n < sub_table_count → slice_index_or result.items n 0
        ≡ spec.next_count now.now texts.now (numbered_sub_table n) moment (λ i. slice_index_or sent.now i false) }
    ensures five_bits { (n : ℕ) → slice_index_or result.items n 0 < 32 }
    ensures each { length result.items ≡ sub_table_count }
{
    let mut counts = ArrayVec::new();
    for number in 0..131 {
        counts.push(next_count(now, texts, number, moment, sent));
    }
    counts
}

// Returns whether what a sub-table says changes.
fn is_changed(now: &Description, texts: &Description, number: usize, moment: u64) -> bool
    ensures { result ≡ spec.changed now.now texts.now moment number }
{
    !now.shows_same(texts, SubTable::numbered(number), moment)
}

/// Returns which sub-tables change, by number.
#[tactic(auto, using(crate::proofs::NextTexts::has_room, crate::proofs::NextTexts::one_more, crate::proofs::NextTexts::each_one, crate::proofs::NextTexts::as_many))]
pub fn changed(now: &Description, texts: &Description, moment: u64) -> [bool; 131]
    ensures { (n : ℕ) → n < sub_table_count → slice_index_or result n false ≡ spec.changed now.now texts.now moment n }
{
    let mut changed = ArrayVec::<bool, 131>::new();
    for number in 0..131 {
        changed.push(is_changed(now, texts, number, moment));
    }
    match changed.into_inner() {
        Ok(changed) => changed,
        Err(_) => unreachable!(),
    }
}

/// Gives each sub-table its number.
pub fn set_counts(texts: &mut Description, counts: &[u8])
    requires each { length counts.now ≡ sub_table_count }
    requires five_bits { (n : ℕ) → slice_index_or counts.now n 0 < 32 }
    ensures { texts.new ≡ spec.with_counts texts.old (λ n. slice_index_or counts.now n 0) }
{
    for number in 0..131 {
        texts.set_count(SubTable::numbered(number), counts[number]);
    }
}

/// Returns the texts with the version of each sub-table. `sent` says which sub-tables have had a section on air since
/// they changed last.
pub fn next_texts(
    now: &Description,
    mut texts: Description,
    moment: u64,
    sent: &[bool; 131],
) -> Description
    ensures { result ≡ spec.next_texts now.now texts moment (λ n. slice_index_or sent.now n false) }
{
    let counts = next_counts(now, &texts, moment, sent);
    set_counts(&mut texts, counts.as_slice());
    texts
}
