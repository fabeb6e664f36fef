//! Laws of the definitions. Each function does nothing: its contract is the law.

ghost use Rattle.job_inputs.specs.AskedMarks.{NoneIsAsked};
ghost use Rattle.job_inputs.specs.NewNumbers.{PlacesAreApart};
ghost use Rattle.job_inputs.specs.NumbersApart.{JoinedAreApart};

/// States that the findings stay as they are if the options ask for no mark.
pub fn none_is_asked()
    ensures { NoneIsAsked }
{}

/// States that no number given to an input belongs to an input before, and that no two are equal.
pub fn places_are_apart()
    ensures { PlacesAreApart }
{}

/// States that inputs that are joined have programs with numbers and PIDs of their own, if each input alone has.
pub fn joined_are_apart()
    ensures { JoinedAreApart }
{}
