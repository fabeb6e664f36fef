//! Why a unit is refused.

ghost use Rattle.std.specs.Prelude.{◌≡◌};
ghost use Rattle.unit_queue.specs.Codes.{feed_code};

use thiserror::Error;

/// Why a unit is refused. Where several causes hold, the first in this order is given.
#[derive(Clone, Copy, Debug, PartialEq, Eq, Error)]
pub enum FeedError {
    /// No stream has this number.
    #[error("no stream has this number")]
    UnknownStream,
    /// The unit has no bytes.
    #[error("the unit has no bytes")]
    Empty,
    /// The unit has more bytes than its stream declares.
    #[error("the unit has more bytes than its stream declares")]
    TooLarge,
    /// The DTS is less than an interval after the last accepted one.
    #[error("the DTS is less than an interval after the one before")]
    TooSoon,
    /// The PTS is before the DTS, or more than 90,000 units of 90 kHz after it.
    #[error("the PTS is before the DTS, or more than a second after it")]
    BadPts,
    /// Slots in which the unit might have been sent are written already.
    #[error("slots in which the unit might have been sent are written already")]
    Late,
    /// The DTS is over 2^52.
    #[error("the DTS is over 2^52")]
    TooFar,
    /// The stream holds as many units as it may.
    #[error("the stream holds as many units as it may")]
    Full,
    /// A group of units has more packets than its stream declares.
    #[error("a group of units has more packets than its stream declares")]
    Group,
    /// Units in a row have more packets than the burst and the pace that their stream declares.
    #[error("units in a row have more packets than the burst and the pace of their stream")]
    Pace,
    /// No program on air has the stream.
    #[error("no program on air has the stream")]
    OffAir,
}

impl FeedError {
    /// Returns the number of this refusal in fault lines.
    pub fn code(self) -> u8
        ensures { result ≡ feed_code self }
    {
        match self {
            FeedError::UnknownStream => 1,
            FeedError::Empty => 2,
            FeedError::TooLarge => 3,
            FeedError::TooSoon => 4,
            FeedError::BadPts => 5,
            FeedError::Late => 6,
            FeedError::TooFar => 7,
            FeedError::Full => 8,
            FeedError::Group => 9,
            FeedError::Pace => 10,
            FeedError::OffAir => 13,
        }
    }
}
