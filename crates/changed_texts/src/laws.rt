//! Laws of texts and of their versions, over the definitions alone. Each function does nothing: its contract is the law.

ghost use Rattle.changed_texts.specs.TextFaults.{TextLaw};
ghost use Rattle.changed_texts.specs.Versions.{NextVersionLaw, RisesLaw, StaysLaw, SameTextsLaw, NextRangeLaw, NextTextLaw};

/// States that a description without a fault has only other texts than the frame.
pub fn texts()
    ensures { TextLaw }
{}

/// States the version that each sub-table shows next: another one if it changed and its version was sent; and that a
/// sub-table that did not change has the same bytes.
pub fn versions()
    ensures next { NextVersionLaw }
    ensures rises { RisesLaw }
    ensures stays { StaysLaw }
{}

/// States that the next texts have only other numbers than the new ones, and are in range.
pub fn next_texts()
    ensures same { SameTextsLaw }
    ensures range { NextRangeLaw }
    ensures texts { NextTextLaw }
{}
