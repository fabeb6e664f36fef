//! The events of a service in time (EN 300 468, 5.2.4).

ghost use Rattle.std.specs.Prelude.{◌<◌};

use crate::character_coding::Text;

/// An event of a service. Times are seconds, `start` since 1 January 1970 UTC. A duration is below 100
/// hours, since it is written in six digits.
#[derive(Drop)]
pub struct Event {
    pub id: u16,
    pub start: u64,
    pub duration: u32,
    /// The ISO 639 code of the language of the name and the text.
    pub language: [u8; 3],
    pub name: Text<100>,
    pub text: Text<150>,
    pub ghost in_six_digits: { duration < 360000 },
}
