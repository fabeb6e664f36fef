//! Recurrence of PCRs and of the sections of a table, from the run's begin to its end, for any function of own slots:
//! one plan or two.

ghost use Rattle.own_slots.specs.Rounds.{RoundLaw, RecurrenceLaw, PcrLaw, TableLaw};

/// States that own slot number i of a table is place `i mod k`. Where each window of g slots has k own slots, it has
/// each place.
pub fn round_places()
    ensures { RoundLaw }
{}

/// States that, if each window of g slots has an own slot, byte `offset` of the own slots' packets recurs within the
/// limit: from the run's begin to the first, between two, from the last to the run's end. The limit is in
/// milliseconds, the rate in bits/s, and `g * 1504000 <= limit * rate`.
pub fn recurrence()
    ensures { RecurrenceLaw }
{}

/// States the recurrence of PCRs, whose time is the time of byte 10 of each packet.
pub fn pcr_recurrence()
    ensures { PcrLaw }
{}

/// States the recurrence of a section, which begins at the begin of the slot that is its first place of the round.
pub fn section_recurrence()
    ensures { TableLaw }
{}
