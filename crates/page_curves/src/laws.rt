//! Laws of curves. Each is a function that does nothing: its contract is the law, over the definitions of `specs/`
//! alone, and a caller may cite it.
ghost use Rattle.page_curves.specs.Laws.{BoundLaw, ValueLaw};

/// States that no value is lost, however many windows a slot represents: each value lies within the bounds of its slot,
/// and each bound is a value of a window of its slot.
pub fn slots_hold_their_values()
    ensures within { ValueLaw }
    ensures taken_on { BoundLaw }
{}
