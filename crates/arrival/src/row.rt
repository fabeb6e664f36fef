//! Bytes that arrive one after another at an even pace.
ghost use Rattle.std.specs.Prelude.{◌≡◌, ℕ, All, IsTrue, ◌++◌, ◌+◌, ◌*◌, ◌/◌, ◌<◌, ◌≤◌, ◌^◌};
ghost use Rattle.clock27.specs.Arrival.{bytes_from};
ghost use Rattle.arrival.specs.Rows.{IsTimed, IsEarly, first_bytes, other_bytes, times_of};

// Returns whether the multiple after the first `count` multiples is not above `room`: then all of these are below it.
// Takes no division.
#[inline]
fn are_all_below(room: u128, gain: u128, count: u64) -> bool
    ensures { IsTrue result → count * gain ≤ room }
{
    match u128::from(count).checked_mul(gain) {
        Some(next) => next <= room,
        None => false,
    }
}

/// Returns how many of the first `count` multiples of `gain`, from 0 on, are below `room`.
#[inline]
#[tactic(auto, using(crate::proofs::Rows::all_below))]
pub fn multiples_below(room: u128, gain: u128, count: u64) -> u64
    requires room { room < 2 ^ 128 }
    ensures bound { result ≤ count }
    ensures below { (j : ℕ) → j < result → j * gain < room }
    ensures next { result < count → room ≤ result * gain }
{
    if room == 0 {
        return 0;
    }
    if gain == 0 {
        return count;
    }
    if are_all_below(room, gain, count) {
        return count;
    }
    room.div_ceil(gain).min(u128::from(count)) as u64
}

/// Bytes one after another: byte number `j` of them at `(from + j * pace) / parts`, rounded down.
#[derive(Clone, Copy)]
pub struct Row {
    pub from: u128,
    pub pace: u64,
    pub parts: u64,
    pub bytes: u64,
}

impl Row {
    /// Returns the arrivals of `count` bytes from byte `byte` on of a stream of constant rate `R`, at a buffer that is
    /// drained at `drain` bits a second, in units of `8 / (R * drain)` seconds: there a byte takes `R` to leave, and
    /// nothing is rounded.
    #[inline(always)]
    #[tactic(auto, using(crate::proofs::Rows::constant_row))]
    pub fn at_constant_rate(drain: u64, byte: u64, count: u64) -> Row
        requires drain { drain ≤ 200000000 }
        requires end { byte + count ≤ 2 ^ 41 }
        ensures times { times_of result ≡ bytes_from drain byte count }
        ensures timed { IsTimed result }
        ensures early { IsEarly result }
        ensures bytes { result.bytes ≡ count }
    {
        Row {
            from: u128::from(byte) * u128::from(drain),
            pace: drain,
            parts: 1,
            bytes: count,
        }
    }

    /// Returns the time of byte number `j`.
    #[inline(always)]
    pub fn time(&self, j: u64) -> u128
        requires timed { IsTimed self.now }
        requires j { j ≤ self.now.bytes }
        ensures time { result ≡ (self.now.from + j * self.now.pace) / self.now.parts }
        ensures bound { result ≤ 2 ^ 87 }
        ensures soon { IsEarly self.now → result ≤ 2 ^ 86 }
    {
        let at = self.from + u128::from(j) * u128::from(self.pace);
        if self.parts == 1 {
            // A division of 128 bits takes longer than everything else here, and at a constant rate there is nothing
            // to divide.
            return at;
        }
        at / u128::from(self.parts)
    }

    /// Returns its first `count` bytes, and the rest.
    #[inline(always)]
    #[tactic(auto, using(crate::proofs::Rows::split_rows))]
    pub fn split_at(&self, count: u64) -> (Row, Row)
        requires timed { IsTimed self.now }
        requires count { count ≤ self.now.bytes }
        ensures first { result.0 ≡ first_bytes self.now count }
        ensures others { result.1 ≡ other_bytes self.now count }
        ensures times { times_of result.0 ++ times_of result.1 ≡ times_of self.now }
        ensures timed { IsTimed result.0 × IsTimed result.1 }
        ensures early { IsEarly self.now → IsEarly result.0 × IsEarly result.1 }
    {
        let first = Row {
            from: self.from,
            pace: self.pace,
            parts: self.parts,
            bytes: count,
        };
        let others = Row {
            from: self.from + u128::from(count) * u128::from(self.pace),
            pace: self.pace,
            parts: self.parts,
            bytes: self.bytes - count,
        };
        (first, others)
    }

    /// Returns its bytes before a moment, and the rest.
    #[inline]
    pub fn split_before(&self, moment: u128) -> (Row, Row)
        requires timed { IsTimed self.now }
        requires moment { moment ≤ 2 ^ 87 }
        ensures times { times_of result.0 ++ times_of result.1 ≡ times_of self.now }
        ensures timed { IsTimed result.0 × IsTimed result.1 }
        ensures early { IsEarly self.now → IsEarly result.0 × IsEarly result.1 }
        ensures before { All (λ t. t < moment) (times_of result.0) }
        ensures after { All (λ t. moment ≤ t) (times_of result.1) }
    {
        let room = (moment * u128::from(self.parts)).saturating_sub(self.from);
        self.split_at(multiples_below(room, u128::from(self.pace), self.bytes))
    }
}
