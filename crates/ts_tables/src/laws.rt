//! The law of the streams that are named: a function that does nothing, whose contract is the law, over the definitions
//! of `specs/` alone. A caller may cite it.
ghost use Rattle.ts_tables.specs.Laws.{FirstLaw};

/// States that the streams are the streams named by the first packets after which each program of the association table
/// has a map, or by the first 32,768 packets.
pub fn first_tables()
    ensures { FirstLaw }
{}
