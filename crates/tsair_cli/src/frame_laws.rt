//! The law of the format. It does nothing: its contract is the law.

ghost use Rattle.tsair_cli.specs.FrameLaws.{WritersAreRead};

/// States that exactly the whole records are read from the output of writers, each stopped anywhere.
pub fn writers_are_read()
    ensures { WritersAreRead }
{}
