//! The program that a stream or an event belongs to.

ghost use Rattle.std.specs.Prelude.{◌≡◌};
ghost use Rattle.std.specs.List.{list_any};
ghost use Rattle.toml.specs.View.{view};
ghost use Rattle.description_keys.specs.ProgramKeys.{program_number, has_number};
ghost use Rattle.description_keys.specs.StreamKeys.{owner_number, declares, has_owner, is_owned_by};

use description_values::arrays::elements;
use description_values::values::integer_at;
use toml::Value;

/// Returns program_number (ISO/IEC 13818-1, 2.4.4.5): 1 to 65,535; `None` if the key is refused.
pub fn program_number(program: &Value) -> Option<u16>
    ensures { result ≡ program_number (view program.now) }
{
    Some(integer_at(program, "number", 1, 65_535)? as u16)
}

/// Returns the number of the program that a stream or an event names.
pub fn owner_number(part: &Value) -> Option<u16>
    ensures { result ≡ owner_number (view part.now) }
{
    Some(integer_at(part, "program", 1, 65_535)? as u16)
}

// Returns whether a program has the number.
pub(crate) fn has_number(number: u16, program: &Value) -> bool
    ensures { result ≡ has_number number (view program.now) }
{
    program_number(program) == Some(number)
}

fn one_has_number(number: u16, programs: &[Value]) -> bool
    ensures { result ≡ list_any (λ v. has_number number (view v)) programs.now }
{
    programs.iter().any(|program| has_number(number, program))
}

/// Returns whether a program of the document has the number.
pub fn declares(document: &Value, number: u16) -> bool
    ensures { result ≡ declares (view document.now) number }
{
    one_has_number(number, elements(document, "program"))
}

/// Returns whether a stream or an event names a program of the document.
pub fn has_owner(document: &Value, part: &Value) -> bool
    ensures { result ≡ has_owner (view document.now) (view part.now) }
{
    match owner_number(part) {
        None => false,
        Some(number) => declares(document, number),
    }
}

/// Returns whether a stream or an event names the program of a number.
pub fn is_owned_by(number: u16, part: &Value) -> bool
    ensures { result ≡ is_owned_by number (view part.now) }
{
    owner_number(part) == Some(number)
}
