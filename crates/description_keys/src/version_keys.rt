//! The key `versions` of the document: the version_number of the sections of each table (ISO/IEC 13818-1, 2.4.4.5;
//! EN 300 468, 5.2).

ghost use Rattle.std.specs.Prelude.{◌≡◌, ◌≤◌, ◌==◌, IfSome, is_some, map, position};
ghost use Rattle.std.specs.List.{list_all};
ghost use Rattle.toml.specs.View.{view};
ghost use Rattle.description_keys.specs.VersionKeys as spec;

use description_values::arrays::{array_in, elements};
use toml::Value;

/// A table that a text names: of the transport stream, or the PMT or the EIT of a program.
#[derive(Clone, Copy)]
pub enum NamedTable {
    Pat,
    Nit,
    Sdt,
    Pmt,
    Eit,
}

impl NamedTable {
    // Returns its number.
    fn number(self) -> u8
        ensures { result ≡ spec.table_number self }
    {
        match self {
            NamedTable::Pat => 0,
            NamedTable::Nit => 1,
            NamedTable::Sdt => 2,
            NamedTable::Pmt => 3,
            NamedTable::Eit => 4,
        }
    }
}

/// A table, the number of its program, and the version that a text names; a table of the transport stream has the program
/// number 0.
#[derive(Clone, Copy)]
pub struct NamedVersion {
    pub table: NamedTable,
    pub program: u16,
    pub version: u8,
}

fn is_digit(byte: u8) -> bool
    ensures { result ≡ spec.is_digit byte }
{
    48 <= byte && byte <= 57
}

// Returns the number that decimal digits write, 65,536 for all numbers from there on; `None` if a byte is no digit.
fn number_of(text: &[u8]) -> Option<u32>
    ensures value { result ≡ spec.number_after 0 text.now }
    ensures bound { IfSome result (λ n. n ≤ 65536) }
{
    let mut number = 0u32;
    for byte in text {
        if !is_digit(*byte) {
            return None;
        }
        number = u32::min(65_536, 10 * number + (*byte - 48) as u32);
    }
    Some(number)
}

fn if_within(low: u32, high: u32, number: u32) -> Option<u32>
    ensures value { result ≡ spec.if_within low high number }
    ensures bound { IfSome result (λ n. n ≤ high) }
{
    if low <= number && number <= high {
        Some(number)
    } else {
        None
    }
}

// Returns the number of one or more digits, from `low` to `high`.
fn number_within(low: u32, high: u32, text: &[u8]) -> Option<u32>
    ensures value { result ≡ spec.number_within low high text.now }
    ensures bound { IfSome result (λ n. n ≤ high) }
{
    if text.is_empty() {
        return None;
    }
    match number_of(text) {
        None => None,
        Some(number) => if_within(low, high, number),
    }
}

fn version_of_stream(table: NamedTable, text: &[u8]) -> Option<NamedVersion>
    ensures { result ≡ spec.version_of_stream table text.now }
{
    match number_within(0, 31, text) {
        None => None,
        Some(version) => Some(NamedVersion {
            table,
            program: 0,
            version: version as u8,
        }),
    }
}

fn numbered_version(
    table: NamedTable,
    program: Option<u32>,
    version: Option<u32>,
) -> Option<NamedVersion>
    requires program { IfSome program (λ n. n ≤ 65535) }
    requires version { IfSome version (λ n. n ≤ 31) }
    ensures { result ≡ spec.numbered_version table program version }
{
    match (program, version) {
        (Some(program), Some(version)) => Some(NamedVersion {
            table,
            program: program as u16,
            version: version as u8,
        }),
        _ => None,
    }
}

fn space_in(text: &[u8]) -> Option<usize>
    ensures { result ≡ position (λ c. c == 32) text.now }
{
    text.iter().position(|byte| *byte == 32)
}

fn version_of_program(table: NamedTable, text: &[u8]) -> Option<NamedVersion>
    ensures { result ≡ spec.version_of_program table text.now }
{
    match space_in(text) {
        None => None,
        Some(space) => {
            let program = number_within(1, 65_535, &text[..space]);
            numbered_version(table, program, number_within(0, 31, &text[space + 1..]))
        }
    }
}

fn stream_table(text: &[u8]) -> Option<NamedTable>
    ensures { result ≡ spec.stream_table text.now }
{
    if text.starts_with(b"PAT ") {
        Some(NamedTable::Pat)
    } else if text.starts_with(b"NIT ") {
        Some(NamedTable::Nit)
    } else if text.starts_with(b"SDT ") {
        Some(NamedTable::Sdt)
    } else {
        None
    }
}

fn program_table(text: &[u8]) -> Option<NamedTable>
    ensures { result ≡ spec.program_table text.now }
{
    if text.starts_with(b"PMT ") {
        Some(NamedTable::Pmt)
    } else if text.starts_with(b"EIT ") {
        Some(NamedTable::Eit)
    } else {
        None
    }
}

fn version_after(
    stream: Option<NamedTable>,
    program: Option<NamedTable>,
    text: &[u8],
) -> Option<NamedVersion>
    ensures { result ≡ spec.version_after stream program text.now }
{
    match stream {
        Some(table) => version_of_stream(table, text),
        None => match program {
            Some(table) => version_of_program(table, text),
            None => None,
        },
    }
}

// Returns the table and the version that a text names; `None` if the text has another form.
fn version_in(text: &[u8]) -> Option<NamedVersion>
    ensures { result ≡ spec.version_in text.now }
{
    match text.get(4..) {
        None => None,
        Some(rest) => version_after(stream_table(text), program_table(text), rest),
    }
}

fn named_version(value: &Value) -> Option<NamedVersion>
    ensures { result ≡ spec.named_version (view value.now) }
{
    match value.as_str() {
        None => None,
        Some(text) => version_in(text.as_bytes()),
    }
}

fn is_version_of(table: NamedTable, program: u16, named: NamedVersion) -> bool
    ensures { result ≡ spec.is_version_of table program named }
{
    named.table.number() == table.number() && named.program == program
}

fn version_if(table: NamedTable, program: u16, value: &Value) -> Option<u8>
    ensures { result ≡ spec.version_if table program (view value.now) }
{
    match named_version(value) {
        Some(named) if is_version_of(table, program, named) => Some(named.version),
        _ => None,
    }
}

fn first_version(table: NamedTable, program: u16, values: &[Value]) -> u8
    ensures { result ≡ spec.first_version table program (map view values.now) }
{
    for value in values {
        if let Some(version) = version_if(table, program, value) {
            return version;
        }
    }
    0
}

/// Returns the version that the first text for a table names, 0 if no text does: of a table of the transport stream with the
/// program number 0, or of the PMT or the EIT of the program of a number.
pub fn version_at(table: NamedTable, program: u16, document: &Value) -> u8
    ensures { result ≡ spec.version_at table program (view document.now) }
{
    first_version(table, program, elements(document, "versions"))
}

fn each_is_version(values: &[Value]) -> bool
    ensures { result ≡ list_all (λ v. is_some (spec.named_version (view v))) values.now }
{
    values.iter().all(|value| named_version(value).is_some())
}

fn all_versions(values: &[Value]) -> bool
    ensures { result ≡ list_all (λ d. is_some (spec.named_version d)) (map view values.now) }
{
    each_is_version(values)
}

fn are_versions(value: &Value) -> bool
    ensures { result ≡ spec.are_versions (view value.now) }
{
    match array_in(value) {
        None => false,
        Some(values) => all_versions(values),
    }
}

/// Returns whether `versions` is refused: no array, or a text of another form.
pub(crate) fn refuses_versions(document: &Value) -> bool
    ensures { result ≡ spec.refuses_versions (view document.now) }
{
    match document.get("versions") {
        None => false,
        Some(value) => !are_versions(value),
    }
}
