//! What the clock of a stream shows at moment 0.

ghost use Rattle.std.specs.Prelude.{◌≡◌, ◌<◌, ◌^◌, IfSome};
ghost use Rattle.fed_streams.specs.Origins as spec;

use es_moments::distance;

/// The longest time from what a clock shows to a DTS that is near, in units of 90 kHz: 10 s.
const LONGEST_WAIT: u64 = 900_000;

/// The longest time from a DTS that is near to what a clock shows, in units of 90 kHz: half a second.
const LONGEST_DELAY: u64 = 45_000;

/// A clock reference that jumps without a discontinuity_indicator, until the next reference.
#[derive(Clone, Copy)]
pub struct DoubtfulClock {
    /// Its packet.
    pub packet: u64,
    /// What the clock showed before, in units of 90 kHz.
    pub before: u64,
    /// What it shows, in units of 90 kHz.
    pub shown: u64,
    /// The constant of the units that belong to it, once it is fixed.
    pub base: Option<u64>,
}

/// The constants that make stamps moments, in units of 90 kHz, once they are fixed.
#[derive(Clone, Copy)]
pub struct Origin {
    /// The constant of the units that begin in the packet `since` or later.
    pub now: Option<u64>,
    /// The packet at which the clock jumped last; 0 if it has not.
    pub since: u64,
    /// The constant of the units that begin before it.
    pub before: Option<u64>,
    /// The last reference, if it is doubtful.
    pub doubtful: Option<DoubtfulClock>,
}

// Returns whether a DTS is near what a clock shows.
#[tactic(auto, unfolding(crate::specs::Origins::is_near))]
fn is_near(shown: u64, dts: u64) -> bool
    ensures { result ≡ spec.is_near shown dts }
{
    distance(shown, dts) <= LONGEST_WAIT || distance(dts, shown) <= LONGEST_DELAY
}

// Returns whether a unit belongs to a doubtful clock, by its first packet and its DTS.
#[tactic(auto, unfolding(crate::specs::Origins::is_doubtful))]
fn is_doubtful(doubtful: Option<DoubtfulClock>, packet: u64, dts: u64) -> bool
    ensures { result ≡ spec.is_doubtful doubtful packet dts }
{
    match doubtful {
        None => false,
        Some(clock) => clock.packet <= packet && !is_near(clock.before, dts),
    }
}

// Returns the constant of the units that belong to a doubtful clock.
#[tactic(auto, unfolding(crate::specs::Origins::doubtful_base))]
fn doubtful_base(doubtful: Option<DoubtfulClock>) -> Option<u64>
    requires { IfSome doubtful (λ d. spec.IsBase d.base) }
    ensures value { result ≡ spec.doubtful_base doubtful }
    ensures bound { spec.IsBase result }
{
    match doubtful {
        None => None,
        Some(clock) => clock.base,
    }
}

// Returns a doubtful clock with a constant.
#[tactic(auto, unfolding(crate::specs::Origins::doubtful_with))]
fn doubtful_with(doubtful: Option<DoubtfulClock>, base: u64) -> Option<DoubtfulClock>
    requires { base < 2 ^ 33 }
    ensures value { result ≡ spec.doubtful_with doubtful base }
    ensures bound { IfSome result (λ d. spec.IsBase d.base) }
{
    match doubtful {
        None => None,
        Some(clock) => Some(DoubtfulClock {
            packet: clock.packet,
            before: clock.before,
            shown: clock.shown,
            base: Some(base),
        }),
    }
}

// Returns a constant after a jump: the clock is taken to show `shown` at a moment.
#[tactic(auto, unfolding(crate::specs::Origins::jumped_base))]
fn jumped_base(moment: u64, shown: u64, base: Option<u64>) -> Option<u64>
    ensures value { result ≡ spec.jumped_base moment shown base }
    ensures bound { spec.IsBase result }
{
    match base {
        None => None,
        Some(_) => Some(distance(moment, shown)),
    }
}

impl Origin {
    /// Returns the state before the first unit.
    pub fn new() -> Origin
        ensures value { result ≡ spec.no_origin }
        ensures bound { spec.IsOrigin result }
    {
        Origin {
            now: None,
            since: 0,
            before: None,
            doubtful: None,
        }
    }

    /// Returns the constant of a unit that begins in a packet, by its DTS, once it is fixed.
    #[tactic(auto, unfolding(crate::specs::Origins::base_for))]
    pub fn base_for(self, packet: u64, dts: u64) -> Option<u64>
        requires { spec.IsOrigin self }
        ensures value { result ≡ spec.base_for self packet dts }
        ensures bound { IfSome result (λ base. base < 2 ^ 33) }
    {
        if packet < self.since {
            return self.before;
        }
        if is_doubtful(self.doubtful, packet, dts) {
            return doubtful_base(self.doubtful);
        }
        self.now
    }

    /// Returns the origin with the constant of a unit that begins in a packet, by its DTS.
    #[tactic(auto, unfolding(crate::specs::Origins::origin_with))]
    pub fn fixed(self, packet: u64, dts: u64, base: u64) -> Origin
        requires origin { spec.IsOrigin self }
        requires base { base < 2 ^ 33 }
        ensures value { result ≡ spec.origin_with self packet dts base }
        ensures bound { spec.IsOrigin result }
    {
        let mut origin = self;
        if packet < self.since {
            origin.before = Some(base);
        } else if is_doubtful(self.doubtful, packet, dts) {
            origin.doubtful = doubtful_with(self.doubtful, base);
        } else {
            origin.now = Some(base);
        }
        origin
    }

    /// Returns the origin after the clock jumps at a packet: it is taken to show `shown` at a moment.
    #[tactic(auto, unfolding(crate::specs::Origins::origin_jumped))]
    pub fn jumped(self, packet: u64, moment: u64, shown: u64) -> Origin
        requires { spec.IsOrigin self }
        ensures value { result ≡ spec.origin_jumped self packet moment shown }
        ensures bound { spec.IsOrigin result }
    {
        Origin {
            now: jumped_base(moment, shown, self.now),
            since: packet,
            before: self.now,
            doubtful: None,
        }
    }

    /// Returns the origin with a doubtful reference in a packet, which shows `shown` after `before`, at a moment.
    #[tactic(auto, unfolding(crate::specs::Origins::origin_doubted, crate::specs::Origins::origin_kept))]
    pub fn doubted(self, packet: u64, moment: u64, before: Option<u64>, shown: u64) -> Origin
        requires { spec.IsOrigin self }
        ensures value { result ≡ spec.origin_doubted self packet moment before shown }
        ensures bound { spec.IsOrigin result }
    {
        match before {
            None => self.kept(),
            Some(before) => Origin {
                now: self.now,
                since: self.since,
                before: self.before,
                doubtful: Some(DoubtfulClock {
                    packet,
                    before,
                    shown,
                    base: jumped_base(moment, shown, self.now),
                }),
            },
        }
    }

    /// Returns the origin without a doubtful reference.
    #[tactic(auto, unfolding(crate::specs::Origins::origin_kept))]
    pub fn kept(self) -> Origin
        requires { spec.IsOrigin self }
        ensures value { result ≡ spec.origin_kept self }
        ensures bound { spec.IsOrigin result }
    {
        Origin {
            now: self.now,
            since: self.since,
            before: self.before,
            doubtful: None,
        }
    }

    /// Returns the origin after the jump of its doubtful reference.
    #[tactic(auto, unfolding(crate::specs::Origins::confirmed_by))]
    pub fn confirmed(self) -> Origin
        requires { spec.IsOrigin self }
        ensures value { result ≡ spec.origin_confirmed self }
        ensures bound { spec.IsOrigin result }
    {
        match self.doubtful {
            None => self,
            Some(clock) => Origin {
                now: clock.base,
                since: clock.packet,
                before: self.now,
                doubtful: None,
            },
        }
    }
}
