//! Values that name services and the network: names with numbers before them, and colons between.

ghost use Rattle.std.specs.Prelude.{◌≡◌, IfOk, map, option_map};
ghost use Rattle.word_faults.specs.Lists.{colon_parts};
ghost use Rattle.word_faults.specs.NameLists as spec;
ghost use Rattle.given_values.specs.GivenNames.{network_name_view};

use crate::lists::parts;
use devices::number_in;
use given_values::{NetworkName, ServiceName};
use std::alloc::{AllocError, Global};

// Returns whether a byte is no control character of ASCII.
fn is_printable(byte: u8) -> bool
    ensures { result ≡ spec.is_printable byte }
{
    byte >= 32 && byte != 127
}

// Returns whether no byte of a text is a control character of ASCII: a description has a text on one line.
fn are_printable(text: &str) -> bool
    ensures { result ≡ spec.are_printable text.now }
{
    text.bytes().all(|byte| is_printable(byte))
}

// Returns the name in a part `N:NAME` or `N:NAME:PROVIDER`.
#[tactic(auto, unfolding(crate::specs::NameLists::name_of))]
fn name_in<'a>(alloc: Global, part: &'a str) -> Result<Option<ServiceName<'a>>, AllocError>
    ensures { IfOk result (λ r. r ≡ spec.name_of (colon_parts part.entry.now)) }
{
    let parts = parts(alloc, part, ':')?;
    let (number, name, provider) = match parts.as_slice() {
        [number, name] => (*number, *name, None),
        [number, name, provider] => (*number, *name, Some(*provider)),
        _ => return Ok(None),
    };
    match number_in(number, 1, 65_535) {
        Some(program) => Ok(Some(ServiceName {
            program: program as u16,
            name,
            provider,
        })),
        None => Ok(None),
    }
}

// Returns the names of all parts; none if a part is bad.
fn all_names<'a>(
    alloc: Global,
    parts: &[&'a str],
) -> Result<Option<Vec<ServiceName<'a>>>, AllocError>
    ensures { IfOk result
        (λ r. option_map (λ names. names.items) r ≡ spec.all_names (map (λ s. s.now) parts.entry.now)) }
{
    let mut all = Vec::new(alloc);
    for part in parts {
        match name_in(alloc, part)? {
            Some(name) => all.push(name)?,
            None => return Ok(None),
        }
    }
    Ok(Some(all))
}

/// Returns the names of a list `N:NAME[:PROVIDER],..`: an empty list if it is not given, `None` if a part is wrong.
#[tactic(auto, unfolding(crate::specs::NameLists::name_list))]
pub fn name_list<'a>(
    alloc: Global,
    text: Option<&'a str>,
) -> Result<Option<Vec<ServiceName<'a>>>, AllocError>
    ensures { IfOk result (λ r. option_map (λ names. names.items) r
        ≡ spec.name_list (option_map (λ s. s.now) text.entry)) }
{
    let Some(text) = text else {
        return Ok(Some(Vec::new(alloc)));
    };
    if !are_printable(text) {
        return Ok(None);
    }
    all_names(alloc, &parts(alloc, text, ',')?)
}

// Returns a network with these numbers, each in its range.
#[tactic(auto, unfolding(crate::specs::NameLists::network_with))]
fn ranged_network<'a>(id: &str, name: &'a str, original: Option<&str>) -> Option<NetworkName<'a>>
    ensures { option_map network_name_view result
        ≡ spec.network_with id.now name.entry.now (option_map (λ s. s.now) original.entry) }
{
    let id = number_in(id, 0, 65_535)? as u16;
    match original {
        None => Some(NetworkName {
            id,
            name,
            original: None,
        }),
        Some(original) => Some(NetworkName {
            id,
            name,
            original: Some(number_in(original, 0, 65_535)? as u16),
        }),
    }
}

/// Returns the network `ID:NAME[:ORIGINAL]`; none if the text is no network.
#[tactic(auto, unfolding(crate::specs::NameLists::network_in, crate::specs::NameLists::network_of))]
pub fn network_in<'a>(alloc: Global, text: &'a str) -> Result<Option<NetworkName<'a>>, AllocError>
    ensures { IfOk result (λ r. option_map network_name_view r ≡ spec.network_in text.entry.now) }
{
    if !are_printable(text) {
        return Ok(None);
    }
    match parts(alloc, text, ':')?.as_slice() {
        [id, name] => Ok(ranged_network(id, name, None)),
        [id, name, original] => Ok(ranged_network(id, name, Some(*original))),
        _ => Ok(None),
    }
}
