//! Laws of the definitions. Each function does nothing: its contract is the law.

ghost use Rattle.dvb_tables.specs.Laws.{TimesAreDigits, TextsAreDecoded, WholeDescriptors, NitsAreReadAgain};
ghost use Rattle.dvb_tables.specs.Laws.{SdtsAreReadAgain, EitsAreReadAgain, TdtsAreReadAgain};

/// States that UTC_time of a moment is the Modified Julian Date and the digits hhmmss of the time of the day.
pub fn times_are_digits()
    ensures { TimesAreDigits }
{}

/// States that a text can be recovered from the bytes that it is coded as.
pub fn texts_are_decoded()
    ensures { TextsAreDecoded }
{}

/// States that the test of descriptors accepts exactly the bytes that are descriptors one after another.
pub fn descriptors_are_whole()
    ensures { WholeDescriptors }
{}

/// States that a written NIT is a NIT, and is read again as the same value.
pub fn nits_are_read_again()
    ensures { NitsAreReadAgain }
{}

/// States that a written SDT is an SDT, and is read again as the same value.
pub fn sdts_are_read_again()
    ensures { SdtsAreReadAgain }
{}

/// States that a written EIT is an EIT, and is read again as the same value.
pub fn eits_are_read_again()
    ensures { EitsAreReadAgain }
{}

/// States that a written TDT is a TDT, and is read again as the same value.
pub fn tdts_are_read_again()
    ensures { TdtsAreReadAgain }
{}
