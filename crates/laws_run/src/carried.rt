//! The round trip of a table and of a stream in their own slots (`table_rounds`, `unit_queue`). Each function
//! does nothing: its contract is the law.
ghost use Rattle.laws_run.specs.Rounds.{RoundsAreSections, TablesCarry, StreamsCarry};
ghost use Rattle.laws_run.specs.Rounds.{TablesComeBack, StreamsComeBack};

/// States that the payloads that a table sends in its own slots are the first payloads of its sections, round
/// after round, each round as of the moment of its first slot.
pub fn rounds_are_sections()
    ensures { RoundsAreSections }
{}

/// States that the packets of a table that is alone on its PID carry them: the premise of the laws on sections.
pub fn tables_carry()
    ensures { TablesCarry }
{}

/// States that the packets of a stream that is alone on its PID carry the first of its units' payloads: the
/// premise of the laws on units.
pub fn streams_carry()
    ensures { StreamsCarry }
{}

/// States the findings of a table that is alone on its PID: each section that was sent whole, round after round;
/// then the bytes of the current section, as truncated; and nothing else.
pub fn tables_come_back()
    ensures { TablesComeBack }
{}

/// States the findings of a stream that is alone on its PID: each unit that was sent whole, then the current
/// unit, and nothing else.
pub fn streams_come_back()
    ensures { StreamsComeBack }
{}
