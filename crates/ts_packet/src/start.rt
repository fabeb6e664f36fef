//! What begins with the first byte of a payload.

ghost use Rattle.std.specs.Prelude.{◌≡◌, ◌≤◌};
ghost use Rattle.ts_packet.specs.Beginnings.{is_start, room_of, start_by};

/// What begins with the first byte of a payload.
#[derive(Clone, Copy, Debug, PartialEq, Eq)]
pub enum Start {
    /// Nothing: the payload continues what an earlier packet carries.
    Continues,
    /// A PES packet or a section.
    Begins,
    /// A PES packet where a decoder may begin: its packet has the random_access_indicator (ISO/IEC 13818-1, 2.4.3.5)
    /// in an adaptation field of two bytes or more.
    Access,
}

impl Start {
    /// Returns what begins with a payload of a unit: nothing if it is not the first; `access` says that a decoder may
    /// begin with the unit.
    pub fn of_unit(first: bool, access: bool) -> Start
        ensures { result ≡ start_by first access }
    {
        if !first {
            Start::Continues
        } else if access {
            Start::Access
        } else {
            Start::Begins
        }
    }

    /// Returns whether the packet has the payload_unit_start_indicator.
    pub fn is_start(self) -> bool
        ensures { result ≡ is_start self }
    {
        match self {
            Start::Continues => false,
            Start::Begins => true,
            Start::Access => true,
        }
    }

    /// Returns the greatest payload in bytes of a packet that begins so.
    pub fn room(self) -> usize
        ensures value { result ≡ room_of self }
        ensures least { 182 ≤ result }
        ensures most { result ≤ 184 }
    {
        match self {
            Start::Continues => 184,
            Start::Begins => 184,
            Start::Access => 182,
        }
    }
}
