//! PIDs that are free.

ghost use Rattle.std.specs.Prelude.{◌≡◌, IfSome, IfNone};
ghost use Rattle.stream_programs.specs.FreePids as spec;

// Returns whether a PID is taken.
#[tactic(auto, unfolding(crate::specs::FreePids::is_taken))]
fn is_taken(pid: u16, taken: &[u16]) -> bool
    ensures { result ≡ spec.is_taken pid taken.now }
{
    taken.iter().any(|other| *other == pid)
}

/// Returns the least PID from `from` on that is not taken, up to 8,190: null packets have 8,191.
pub fn free_pid(from: u16, taken: &[u16]) -> Option<u16>
    ensures least { IfSome result (λ pid. spec.IsLeastFree from taken.now pid) }
    ensures none { IfNone result (spec.AreTaken from 8191 taken.now) }
    ensures value { result ≡ spec.least_free from taken.now }
{
    for pid in from..8191 {
        if !is_taken(pid, taken) {
            return Some(pid);
        }
    }
    None
}
