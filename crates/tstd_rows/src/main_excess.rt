//! Excesses of a main buffer, with few calls.
ghost use Rattle.std.specs.Prelude.{◌≡◌, None};
ghost use Rattle.tstd_rows.specs.MainExcess.{after_row, ended_by};

use crate::excess::Excess;
use crate::main_watch::MainWatch;

/// Writes the excess of a main buffer that has ended with a row into `ended`, which must be empty. The last byte of
/// the row enters at `last`, and a byte of it found `most` bytes there. If the row finds room and there is no current
/// excess, nothing is written.
#[inline(always)]
#[tactic(auto, unfolding(crate::specs::MainExcess::ended_at))]
pub(crate) fn see(watch: &mut MainWatch, most: u64, last: u128, ended: &mut Option<Excess>)
    requires none { ended.old ≡ None }
    ensures ended { ended.new ≡ ended_by watch.old.size watch.old.under_way most last }
    ensures under_way { watch.new.under_way ≡ after_row watch.old.size watch.old.under_way most last }
    ensures size { watch.new.size ≡ watch.old.size }
{
    if most <= watch.size && watch.under_way.is_none() {
        return;
    }
    *ended = watch.see(most, last);
}
