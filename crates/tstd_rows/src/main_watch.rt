//! Excesses of the main buffer.
ghost use Rattle.std.specs.Prelude.{◌≡◌, None};
ghost use Rattle.tstd_rows.specs.MainExcess.{after_row, ended_by};

use crate::excess::Excess;

/// The current excess of a main buffer, if it has one, row by row.
#[derive(Clone, Copy)]
pub struct MainWatch {
    /// The size of the buffer in bytes.
    pub size: u64,
    pub under_way: Option<Excess>,
}

impl MainWatch {
    /// Returns the watch of an empty buffer of `size` bytes.
    pub fn new(size: u64) -> MainWatch
        ensures { result ≡ record { size = size; under_way = None } }
    {
        MainWatch {
            size,
            under_way: None,
        }
    }

    /// Notes a row that `carry` took into the buffer, its last byte at `last`; a byte of it found `most` bytes there,
    /// itself included. Returns the excess that has ended. An excess begins with the last byte of the first row with a
    /// byte that finds no room, and ends with the last byte of the next row whose bytes find room. A call of its own:
    /// few rows begin or end an excess.
    #[inline(never)]
    #[tactic(auto, unfolding(crate::specs::MainExcess::grown, crate::specs::MainExcess::ended_at))]
    pub fn see(&mut self, most: u64, last: u128) -> Option<Excess>
        ensures ended { result ≡ ended_by self.old.size self.old.under_way most last }
        ensures under_way { self.new.under_way ≡ after_row self.old.size self.old.under_way most last }
        ensures size { self.new.size ≡ self.old.size }
    {
        if most <= self.size {
            return self.under_way.take().map(|excess| Excess {
                begin: excess.begin,
                end: last,
                peak: excess.peak,
            });
        }
        let most = u128::from(most);
        let (begin, peak) = match self.under_way {
            None => (last, most),
            Some(excess) => (excess.begin, excess.peak.max(most)),
        };
        self.under_way = Some(Excess {
            begin,
            end: last,
            peak,
        });
        None
    }
}
