//! Laws of the definitions. Each function does nothing: its contract is the law.

ghost use Rattle.psi_tables.specs.Laws.{CheckWordEnds, LongerReadsTheSame, SectionsAreReadAgain, PatsAreReadAgain};
ghost use Rattle.psi_tables.specs.Laws.{PmtsAreReadAgain};

/// States that over a message with its check word after it the check word is 0.
pub fn check_word_ends()
    ensures { CheckWordEnds }
{}

/// States that more bytes after a section make no difference, unless the answer was `Short`: a
/// section is read as soon as it is whole, and its refusal given as soon as it is known.
pub fn longer_reads_the_same()
    ensures { LongerReadsTheSame }
{}

/// States that a written section is a section, and is read again as the same value.
pub fn sections_are_read_again()
    ensures { SectionsAreReadAgain }
{}

/// States that a written PAT is a PAT, and is read again as the same value.
pub fn pats_are_read_again()
    ensures { PatsAreReadAgain }
{}

/// States that a written PMT is a PMT, and is read again as the same value.
pub fn pmts_are_read_again()
    ensures { PmtsAreReadAgain }
{}
