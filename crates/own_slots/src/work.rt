//! Work of a buffer that the own slots fill, from one period to all time.

ghost use Rattle.own_slots.specs.Work.{WorkWalkLaw, WorkLaw, WorkScaleLaw};

/// States that the work before each slot of a period is found by one walk: it begins with the claimed work, and each
/// slot drains 188 bytes' time and adds 188 bytes where it is the buffer's own.
pub fn work_walk()
    ensures { WorkWalkLaw }
{}

/// States that a period that ends with at most the work that it was begun with bounds the work over all time: at each
/// own slot the buffer has room for the packet, in bytes, and at most `peak` is left after it.
pub fn repeated_work()
    ensures { WorkLaw }
{}

/// States that a bound on work holds on a scale q times as fine: all rates and works q times as great, the room in
/// bytes the same.
pub fn finer_scale()
    ensures { WorkScaleLaw }
{}
