//! Two plans: the first for a whole number of its periods, then the second. Own slots are counted on over the switch.

ghost use Rattle.own_slots.specs.Switch.{SwitchGapLaw, SwitchPaceLaw, SwitchWorkLaw, SwitchShareLaw};

/// States that, if both plans have k own slots in each window of g slots, and the second plan's own slot number `k - x`
/// comes within g slots of the first plan's own slot number `-x` for each x from 1 to k, so have the two plans
/// together.
pub fn switch_gaps()
    ensures { SwitchGapLaw }
{}

/// States the pace over the switch. With c1 of N1 and c2 of N2 slots own and spreads of at most a1 and a2, m own slots
/// come within each window of w slots, where `a1 * c2 + a2 * c1 + c1 * c2 * E + m * max (N1 * c2) (N2 * c1) < c1 * c2 *
/// (w + 1)`. The second plan's last own slot is E slots later than the first's.
pub fn switch_pace()
    ensures { SwitchPaceLaw }
{}

/// States that, if the claims of both plans hold and the first plan's period leaves at most the work that the second
/// begins with, the work is bounded over all time, with the greater of the two peaks.
pub fn switch_work()
    ensures { SwitchWorkLaw }
{}

/// States that a window over two plans has no more own slots than windows of the two plans together.
pub fn switch_share()
    ensures { SwitchShareLaw }
{}
