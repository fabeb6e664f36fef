//! Excesses of a buffer that bytes enter one at a time.
ghost use Rattle.std.specs.Prelude.{◌≡◌, ◌<◌, ◌≤◌, ◌^◌, [], ◌∷◌};
ghost use Rattle.std.specs.Option.{option_to_list};
ghost use Rattle.tstd_rows.specs.Excesses as spec;
ghost use Rattle.tstd_rows.specs.Excesses.{after_byte, excesses_ended};

use crate::excess::{Excess, ExcessWatch};
use crate::most_found::found;

// Returns the excess increased by a byte that finds no room, or a new excess that begins with this byte.
#[tactic(auto, unfolding(crate::specs::Excesses::grown))]
fn grown(under_way: &Option<Excess>, size: u64, step: u64, prev: u128, time: u128) -> Excess
    requires some { 0 < step }
    requires prev { prev < 2 ^ 100 }
    requires time { time < 2 ^ 100 }
    ensures { result ≡ spec.grown step size prev under_way.now time }
{
    let left = time.max(prev) + u128::from(step);
    let end = left.saturating_sub(u128::from(size.saturating_sub(1)) * u128::from(step));
    let most = found(step, prev, time);
    match under_way {
        None => Excess {
            begin: time,
            end,
            peak: most,
        },
        Some(under_way) => Excess {
            begin: under_way.begin,
            end,
            peak: under_way.peak.max(most),
        },
    }
}

impl ExcessWatch {
    /// Takes a byte that arrives at a buffer, where a byte takes `step` to leave and the last byte leaves at `prev`;
    /// returns the excess that has ended before it.
    #[tactic(auto, unfolding(crate::specs::Excesses::excesses_ended))]
    pub fn enter_byte(&mut self, step: u64, prev: u128, time: u128) -> Option<Excess>
        requires some { 0 < step }
        requires prev { prev < 2 ^ 100 }
        requires time { time < 2 ^ 100 }
        ensures ended { option_to_list result
            ≡ excesses_ended step self.old.size prev self.old.under_way (time ∷ []) }
        ensures under_way { self.new.under_way ≡ after_byte step self.old.size prev self.old.under_way time }
        ensures size { self.new.size ≡ self.old.size }
    {
        if found(step, prev, time) <= u128::from(self.size) {
            return self.under_way.take();
        }
        self.under_way = Some(grown(&self.under_way, self.size, step, prev, time));
        None
    }
}
