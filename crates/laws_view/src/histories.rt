//! Laws over whole histories, of what `tr101290` finds step by step. Each is a function that does nothing: its contract
//! is the law, over the definitions of `specs/` alone, and a caller may cite it.
ghost use Rattle.laws_view.specs.SectionHistories.{EachTooSoon, NearLaw, OnlyTooSoon};
ghost use Rattle.laws_view.specs.StampHistories.{LateStampLaw};

/// States that a section of service information is reported as too soon if and only if it begins within 25 ms after the
/// end of the section before it of its PID, table_id and table_id_extension (ETSI EN 300 468, 5.1.4.1), whatever
/// sections come between, in a stream of at most 65,536 such tables. In a stream of more tables each section that is
/// reported is such a section too, but not each such section is reported.
pub fn section_distances()
    ensures only { OnlyTooSoon }
    ensures each { EachTooSoon }
    ensures near { NearLaw }
{}

/// States that a PTS of audio or video is reported as late if and only if it comes more than 700 ms after the PTS
/// before it of its PID (ISO/IEC 13818-1, 2.7.4), whatever packets come between.
pub fn stamp_intervals()
    ensures { LateStampLaw }
{}
