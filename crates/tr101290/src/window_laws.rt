//! Laws of windows. Each is a function that does nothing: its contract is the law, over the definitions of `specs/`
//! alone, and a caller may cite it.
ghost use Rattle.tr101290.specs.WindowLaws.{ClockLaw, CountLaw};

/// States that the counts are the counts of all packets of the last packet's window, if packets are in the order of
/// their windows.
pub fn counts()
    ensures packets { CountLaw }
    ensures clocks { ClockLaw }
{}
