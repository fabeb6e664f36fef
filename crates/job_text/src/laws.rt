//! Laws of the definitions. Each function does nothing: its contract is the law.

ghost use Rattle.job_text.specs.Laws.{NotesAreShown, TextsAreRead};

/// States that the texts of a heading, of a network if there is one, of programs, of streams and of tables, in this
/// order, are by TOML's grammar the document of their keys and values.
pub fn texts_are_read()
    ensures { TextsAreRead }
{}

/// States that the comment beside a number is printable ASCII, and so ends with its line.
pub fn notes_are_shown()
    ensures { NotesAreShown }
{}
