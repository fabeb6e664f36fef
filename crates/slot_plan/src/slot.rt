//! The slots of a period, and the items that own them.

ghost use Rattle.std.specs.Prelude.{◌≡◌};
ghost use Rattle.slot_plan.specs.Items.{is_own};

/// The most slots of a plan.
pub const MAX_SLOTS: u32 = 99_999;

/// What one packet slot (188 bytes) of a period carries: the next packet of a stream, a PCR of a
/// program, a packet of a table, each by its number from 0, or a null packet.
#[derive(Clone, Copy, PartialEq, Eq)]
pub enum Slot {
    Stream(u8),
    Pcr(u8),
    Table(u8),
    Null,
}

/// What owns slots: a stream, a program's PCR, a table, or a program's system buffers (ISO/IEC
/// 13818-1, 2.4.2), which the packets of the PAT (table 0) and of the program's PMT (table 1 + its
/// number) enter.
#[derive(Clone, Copy, PartialEq, Eq)]
pub enum Item {
    Stream(u8),
    Pcr(u8),
    Table(u8),
    System(u8),
}

impl Item {
    /// Returns whether the slot is the item's own.
    pub fn owns(self, slot: Slot) -> bool
        ensures { result ≡ is_own self slot }
    {
        match (self, slot) {
            (Item::Stream(own), Slot::Stream(number)) => own == number,
            (Item::Pcr(own), Slot::Pcr(number)) => own == number,
            (Item::Table(own), Slot::Table(number)) => own == number,
            (Item::System(program), Slot::Table(number)) => number == 0
                || number as u16 == program as u16 + 1,
            _ => false,
        }
    }
}
