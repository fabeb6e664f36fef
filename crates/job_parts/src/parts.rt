//! Where a job's description ends and its plans begin.
ghost use Rattle.std.specs.Prelude.{◌≡◌, ◌≤◌, true, IfSome, length, option_map};
ghost use Rattle.job_parts.specs.Parts.{parts_of, plan_offset};

/// The first line of a plan's text.
const FIRST_PLAN_LINE: &[u8] = b"tsplan 1\n";

/// Returns the offset of the first line of a plan's text.
fn plan_offset(bytes: &[u8]) -> Option<usize>
    ensures place { result ≡ plan_offset 0 true bytes.now }
    ensures within { IfSome result (λ place. place ≤ length bytes.now) }
{
    let mut at_line = true;
    for (i, byte) in bytes.iter().enumerate() {
        if at_line && bytes[i..].starts_with(FIRST_PLAN_LINE) {
            return Some(i);
        }
        at_line = *byte == b'\n';
    }
    None
}

/// Returns the description's bytes and the bytes from the first line `tsplan 1` on, if there is one.
pub fn parts_of(bytes: &[u8]) -> Option<(&[u8], &[u8])>
    ensures { option_map (λ parts. (parts.0.now, parts.1.now)) result ≡ parts_of bytes.now }
{
    match plan_offset(bytes) {
        None => None,
        Some(place) => Some((&bytes[..place], &bytes[place..])),
    }
}
