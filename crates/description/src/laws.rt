//! Laws of descriptions, over the definitions alone. Each function does nothing: its contract is the law.

ghost use Rattle.description.specs.Pids.{PidsApartLaw, PidsBelowLaw, PidPositionsLaw, StreamRangeLaw, ProgramRangeLaw};
ghost use Rattle.description.specs.Pids.{SectionsLaw};
ghost use Rattle.description.specs.Entries.{SharedLaw, EntryLaw, OwnLaw, OffAirLaw};
ghost use Rattle.description.specs.Services.{ServicesLaw};
ghost use Rattle.description.specs.Networks.{NetworkLaw};
ghost use Rattle.description.specs.Versions.{NumberedLaw, VersionedLaw, SameTablesLaw, CountedLaw, CountLaw};

/// States that no two of a description's tables, clocks and streams share a PID, that each PID is below the PID of null
/// packets, and that the list of PIDs has them in the order of their numbers.
pub fn pids()
    ensures apart { PidsApartLaw }
    ensures below { PidsBelowLaw }
    ensures places { PidPositionsLaw }
{}

/// States that a stream, and a program by its number, is in its ranges.
pub fn ranges()
    ensures streams { StreamRangeLaw }
    ensures programs { ProgramRangeLaw }
{}

/// States that each table has 1 to 128 sections, and its round a place.
pub fn sections()
    ensures { SectionsLaw }
{}

/// States that the sections of the SDT, read one after another, list the services of all programs, each once and in
/// order, with their section_number and last_section_number.
pub fn services()
    ensures { ServicesLaw }
{}

/// States that the sections of the NIT, read one after another, list this transport stream and the network's others,
/// each once and in order, with their section_number and last_section_number; and that section 0 has the network's
/// descriptors.
pub fn networks()
    ensures { NetworkLaw }
{}

/// States that the PMT of a program that is on air names its own streams, each stream that the program shares, and each
/// private table that names it; and that of a program off air none.
pub fn program_maps()
    ensures shared { SharedLaw }
    ensures tables { EntryLaw }
    ensures own { OwnLaw }
    ensures off_air { OffAirLaw }
{}

/// States that each section of a sub-table is its section of a number under the version that the description has, and
/// shows it.
pub fn numbered()
    ensures { NumberedLaw }
{}

/// States that two descriptions that show the same of a sub-table, under one version, have the same bytes.
pub fn versioned()
    ensures { VersionedLaw }
{}

/// States that versions change no table, length or section but for its version.
pub fn same_tables()
    ensures { SameTablesLaw }
{}

/// States that another number of a sub-table changes nothing else.
pub fn counted()
    ensures changes { CountedLaw }
    ensures number { CountLaw }
{}
