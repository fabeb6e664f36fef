//! What table a section is of, by its table_id (ISO/IEC 13818-1, table 2-31; EN 300 468, table 2).

ghost use Rattle.std.specs.Prelude.{◌≡◌};
ghost use Rattle.other_tables.specs.TableKinds as spec;

/// A table that no job is made of.
#[derive(Clone, Copy, PartialEq, Eq)]
pub enum TableKind {
    /// CAT, and what a conditional access system sends (ECM, EMM).
    ConditionalAccess,
    /// DSM-CC (ISO/IEC 13818-6).
    Objects,
    /// NIT of another network.
    Network,
    /// SDT of other streams, and BAT.
    Services,
    /// EIT of other streams, and of schedules.
    Events,
    /// TOT.
    Time,
    /// RST.
    Running,
    /// AIT (ETSI TS 102 809).
    Applications,
    /// Splice information (SCTE 35).
    Splices,
    /// Another one.
    Private,
}

/// Returns which table a section with this table_id belongs to; `None` for the tables of a job, and for stuffing.
#[tactic(auto, unfolding(crate::specs::TableKinds::kind_of))]
pub fn kind_of(table_id: u8) -> Option<TableKind>
    ensures { result ≡ spec.kind_of table_id }
{
    match table_id {
        0x00 | 0x02 | 0x40 | 0x42 | 0x4E | 0x70 | 0x72 => None,
        0x41 => Some(TableKind::Network),
        0x46 | 0x4A => Some(TableKind::Services),
        0x73 => Some(TableKind::Time),
        0x71 => Some(TableKind::Running),
        0x74 => Some(TableKind::Applications),
        0xFC => Some(TableKind::Splices),
        _ => Some(kind_in_range(table_id)),
    }
}

// Returns the table of a table_id in a range of table_ids.
#[tactic(auto, unfolding(crate::specs::TableKinds::kind_in_range))]
fn kind_in_range(table_id: u8) -> TableKind
    ensures { result ≡ spec.kind_in_range table_id }
{
    if table_id == 0x01 {
        return TableKind::ConditionalAccess;
    }
    if table_id >= 0x3A && table_id <= 0x3F {
        return TableKind::Objects;
    }
    if table_id >= 0x4F && table_id <= 0x6F {
        return TableKind::Events;
    }
    if table_id >= 0x80 && table_id <= 0x8F {
        return TableKind::ConditionalAccess;
    }
    TableKind::Private
}

impl TableKind {
    /// Returns whether a viewer loses anything without such a table: not with a table of conditional access, since no
    /// scrambled stream is carried.
    #[tactic(auto, unfolding(crate::specs::TableKinds::is_loss))]
    pub fn is_loss(self) -> bool
        ensures { result ≡ spec.is_loss self }
    {
        match self {
            TableKind::ConditionalAccess => false,
            _ => true,
        }
    }
}
