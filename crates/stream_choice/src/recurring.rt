//! PCRs and tables.

/// A recurring item: PCRs, or the sections of a table.
#[derive(Clone, Copy)]
pub struct Recurring {
    /// The slots of a round.
    pub slots: u32,
    /// The time within which each round comes again, in ms.
    pub limit: u32,
}
