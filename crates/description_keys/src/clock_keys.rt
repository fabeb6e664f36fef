//! The keys `clock_pid` of the document and `pcr_pid` of a program: the PIDs of clock references
//! (ISO/IEC 13818-1, 2.4.4.9).

ghost use Rattle.std.specs.Prelude.{◌≡◌};
ghost use Rattle.std.specs.List.{list_all};
ghost use Rattle.toml.specs.View.{view};
ghost use Rattle.description_keys.specs.ProgramKeys as programs;
ghost use Rattle.description_keys.specs.TopKeys as spec;

use description_values::arrays::elements;
use description_values::values::{integer_at, optional_integer};
use toml::Value;

/// Returns the PID of the clock references that programs share: 32 to 8,190; `None` also if the key is refused.
pub fn clock_pid(document: &Value) -> Option<u16>
    ensures value { result ≡ spec.clock_pid_of (view document.now) }
{
    match optional_integer(document, "clock_pid", 32, 8_190) {
        Some(Some(pid)) => Some(pid as u16),
        _ => None,
    }
}

/// Returns whether a program has clock references of its own.
pub fn has_own_clock(program: &Value) -> bool
    ensures value { result ≡ spec.has_own_clock (view program.now) }
{
    program.get("pcr_pid").is_some()
}

// Returns the PID of a program's own clock references: 32 to 8,190; `None` if the key is refused.
fn own_pid(program: &Value) -> Option<u16>
    ensures { result ≡ programs.program_pcr_pid (view program.now) }
{
    Some(integer_at(program, "pcr_pid", 32, 8_190)? as u16)
}

/// Returns PCR_PID of a program (ISO/IEC 13818-1, 2.4.4.9): its own PID, or the shared one; 32 if both are refused.
pub fn clock_pid_in(document: &Value, program: &Value) -> u16
    ensures value { result ≡ programs.clock_pid_in (view document.now) (view program.now) }
{
    own_pid(program).or(clock_pid(document)).unwrap_or(32)
}

fn each_has_clock(programs: &[Value]) -> bool
    ensures { result ≡ list_all (λ v. spec.has_own_clock (view v)) programs.now }
{
    programs.iter().all(|program| has_own_clock(program))
}

fn have_own_clocks(document: &Value) -> bool
    ensures { result ≡ spec.have_own_clocks (view document.now) }
{
    each_has_clock(elements(document, "program"))
}

/// Returns whether `clock_pid` is refused: out of its range, or there although each program has a clock of its own.
pub(crate) fn refuses_shared_clock(document: &Value) -> bool
    ensures { result ≡ spec.refuses_shared_clock (view document.now) }
{
    optional_integer(document, "clock_pid", 32, 8_190).is_none()
        || clock_pid(document).is_some() && have_own_clocks(document)
}

/// Returns whether `pcr_pid` is refused: out of its range, or absent without a shared PID.
pub(crate) fn refuses_pcr_pid(document: &Value, program: &Value) -> bool
    ensures { result ≡ programs.refuses_pcr_pid (view document.now) (view program.now) }
{
    own_pid(program).is_none() && (has_own_clock(program) || clock_pid(document).is_none())
}
