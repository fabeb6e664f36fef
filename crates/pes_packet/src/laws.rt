//! Laws of the definitions. Each function does nothing: its contract is the law.

ghost use Rattle.std.specs.Prelude.{ℕ, Bool, List};
ghost use Rattle.pes_packet.specs.Laws.{WrittenIsRead, WrittenIsHeader, MarksAreRead, HeaderSizes, HeaderCounts, WithoutMarks};
ghost use Rattle.pes_packet.specs.Laws.{MarksHaveSixteen, LongerIsRead, PayloadsJoin, UnitPiecesJoin};

/// States that a header that `write_header` writes is read again as the same value, whatever follows it.
pub fn written_is_read()
    ensures { WrittenIsRead }
{}

/// States that a header that `write_header` writes is a header by the standard's table of fields.
pub fn written_is_header()
    ensures { WrittenIsHeader }
{}

/// States that a header that `write_header` writes carries the marks of its unit.
pub fn marks_are_read()
    ensures { MarksAreRead }
{}

/// States that PES_private_data of the marks that a header carries has 16 bytes.
pub fn marks_have_sixteen()
    ensures { MarksHaveSixteen }
{}

/// States that a header that `write_header` writes has 45 bytes if it is long, otherwise 14, or 19 with a DTS, and 17
/// more with PES_private_data.
pub fn header_sizes()
    ensures { HeaderSizes }
{}

/// States that PES_packet_length counts the packet if its unit and what the unit's marks take have at most
/// 65,522 bytes.
pub fn header_counts()
    ensures { HeaderCounts }
{}

/// States that a header without marks has flag bytes 80 80 and a PTS, or 80 C0, a PTS and a DTS.
pub fn without_marks()
    ensures { WithoutMarks }
{}

/// States that more bytes at the end change no answer of `read_header` except `Short`.
pub fn longer_is_read()
    ensures { LongerIsRead }
{}

/// States that the payloads of a PES packet have 184 bytes each, the last 1 to 184, and joined they are the packet.
pub fn payloads_join()
    ensures { (bytes : List ℕ) → PayloadsJoin bytes }
{}

/// States that the payloads of a unit have 184 bytes each (182 in the first, if a decoder may begin with the unit),
/// and that joined they are its PES packet.
pub fn unit_pieces_join()
    ensures { (access : Bool) (pes : List ℕ) → UnitPiecesJoin access pes }
{}
