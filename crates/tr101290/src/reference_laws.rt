//! Laws of the lists. Each is a function that does nothing: its contract is the law, over the definitions of `specs/`
//! alone, and a caller may cite it.
ghost use Rattle.tr101290.specs.ReferenceLaws.{MissingLaw, UnreferencedLaw};

/// States which PIDs are in the lists: PIDs with packets that no table names though one must, and PIDs that are named
/// and have no packet.
pub fn members()
    ensures unreferenced { UnreferencedLaw }
    ensures missing { MissingLaw }
{}
