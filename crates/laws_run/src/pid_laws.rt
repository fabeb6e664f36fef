//! Findings in the finished bytes of n slots, with their end. Each function does nothing: its
//! contract is the law.
ghost use Rattle.laws_run.specs.Sections.{WrittenAreRecognized};
ghost use Rattle.laws_run.specs.CleanPids.{UnitsAreClean, SectionsAreClean, ByPids};
ghost use Rattle.laws_run.specs.PidLaws.{UnitsComeBack, SectionsComeBack, NothingComesBack};
ghost use Rattle.laws_run.specs.PidLaws.{AllIsOfPids, FoundInOrder, NumberedPayloads};

/// States the findings of a PID that carries access units: each unit that was sent whole, with its stream_id, its
/// stamps as on the wire and its data; then the bytes of the current unit, as truncated, or as a PES packet that
/// did not end if it has no PES_packet_length; and nothing else.
pub fn units_come_back()
    ensures { UnitsComeBack }
{}

/// States the findings of a PID that carries sections: each section that was sent whole; then the bytes of the current
/// section, as truncated; and nothing else. No section may begin 00 01 (after pointer_field 0 that is a PES packet) or
/// have table_id 0xFF (stuffing).
pub fn sections_come_back()
    ensures { SectionsComeBack }
{}

/// States that what `psi_tables` writes is such a section, unless its table_id is 0xFF.
pub fn written_sections_are_recognized()
    ensures { WrittenAreRecognized }
{}

/// States that a PID that carries clock references alone, or nothing, has no finding.
pub fn nothing_comes_back()
    ensures { NothingComesBack }
{}

/// States that all that is found is of a PID, and never of null packets: no packet is damaged, flagged in error or cut.
pub fn all_is_of_pids()
    ensures { AllIsOfPids }
{}

/// States that findings are in the order of the packets; the findings that the end of the stream decides are last,
/// and have the number of packets.
pub fn found_in_order()
    ensures { FoundInOrder }
{}

/// States that if the payloads on a PID, slot by slot, are numbered from 0 on, and nothing else is on it, its packets
/// carry them: the premise of the laws above, from what each slot carries.
pub fn numbered_payloads()
    ensures { NumberedPayloads }
{}

/// States that no fault is found on a PID that carries units: no packet is scrambled, none is repeated, and no counter
/// breaks.
pub fn units_are_clean()
    ensures { UnitsAreClean }
{}

/// States that nothing is wrong on a PID that carries whole sections, and that none of these is refused, even if a
/// section begins 00 01 or has table_id 0xFF.
pub fn sections_are_clean()
    ensures { SectionsAreClean }
{}

/// States that all findings have a property, if the findings of each PID have it.
pub fn by_pids()
    ensures { ByPids }
{}
