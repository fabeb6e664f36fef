//! Descriptors that the texts of a description give (EN 300 468, 6.2), and copies of descriptors that they do not give.

ghost use Rattle.std.specs.Prelude.{◌≡◌, ◌≤◌, IfOk, length, option_map};
ghost use Rattle.std.specs.Option.{option_or};
ghost use Rattle.description_values.specs.Values.{language_of};
ghost use Rattle.job_programs.specs.GivenLoops as spec;

use arrayvec::ArrayVec;
use dvb_tables::{
    Event, Text, are_whole_descriptors, push_network_name, push_service, push_short_event,
};
use std::alloc::{AllocError, Global};

// Returns a text as it is written in a descriptor, if it has at most `N` bytes then.
#[tactic(auto, unfolding(crate::specs::GivenLoops::coded))]
fn coded<const N: usize>(text: &str) -> Option<Text<N>>
    ensures { result ≡ spec.coded N text.now }
{
    Text::new(text).ok()
}

// States that a text has at most `N` bytes.
fn keeps_length<const N: usize>(text: &Text<N>)
    ensures { length text.now ≤ N }
{
    let _bytes = text.as_bytes();
}

/// Returns the descriptors that service_type, provider and name of a service give.
#[tactic(auto, unfolding(crate::specs::GivenLoops::given_service))]
pub(crate) fn given_service(
    service_type: u8,
    provider: &str,
    name: &str,
) -> Option<ArrayVec<u8, 205>>
    ensures { option_map (λ b. b.items) result ≡ spec.given_service service_type provider.now name.now }
{
    let provider = coded::<100>(provider)?;
    let name = coded::<100>(name)?;
    keeps_length(&provider);
    keeps_length(&name);
    let mut bytes = ArrayVec::new();
    push_service(&mut bytes, service_type, &provider, &name);
    Some(bytes)
}

/// Returns the descriptors that the name of a network gives.
#[tactic(auto, unfolding(crate::specs::GivenLoops::given_network))]
pub(crate) fn given_network(name: &str) -> Option<ArrayVec<u8, 202>>
    ensures { option_map (λ b. b.items) result ≡ spec.given_network name.now }
{
    let name = coded::<200>(name)?;
    keeps_length(&name);
    let mut bytes = ArrayVec::new();
    push_network_name(&mut bytes, &name);
    Some(bytes)
}

// Returns a language of three letters.
fn language_of(text: &[u8]) -> Option<[u8; 3]>
    ensures { result ≡ language_of text.now }
{
    match text {
        [a, b, c]
            if a.is_ascii_alphabetic() && b.is_ascii_alphabetic() && c.is_ascii_alphabetic() => {
            Some([*a, *b, *c])
        }
        _ => None,
    }
}

/// Returns the descriptors that language, name and text of an event give.
#[tactic(auto, unfolding(crate::specs::GivenLoops::given_event))]
pub(crate) fn given_event(language: &str, name: &str, text: &str) -> Option<ArrayVec<u8, 257>>
    ensures { option_map (λ b. b.items) result ≡ spec.given_event language.now name.now text.now }
{
    let language = language_of(language.as_bytes())?;
    let name = coded::<100>(name)?;
    let text = coded::<150>(text)?;
    keeps_length(&name);
    keeps_length(&text);
    let event = Event {
        id: 0,
        start: 0,
        duration: 0,
        language,
        name,
        text,
    };
    let mut bytes = ArrayVec::new();
    push_short_event(&mut bytes, &event);
    Some(bytes)
}

// Returns whether texts give exactly these descriptors.
#[tactic(auto, unfolding(crate::specs::GivenLoops::is_loop))]
fn is_loop<const N: usize>(descriptors: &[u8], given: &Option<ArrayVec<u8, N>>) -> bool
    ensures { result ≡ spec.is_loop descriptors.now (option_map (λ b. b.items) given.now) }
{
    match given {
        None => false,
        Some(given) => descriptors == given.as_slice(),
    }
}

/// Returns whether these are the descriptors that are kept, or without any those that texts give.
#[tactic(auto, unfolding(crate::specs::GivenLoops::is_loop))]
pub(crate) fn is_loop_of<const N: usize>(
    descriptors: &[u8],
    kept: &Option<Vec<u8>>,
    given: &Option<ArrayVec<u8, N>>,
) -> bool
    ensures { result ≡ spec.is_loop descriptors.now
        (option_or (option_map (λ b. b.items) kept.now) (option_map (λ b. b.items) given.now)) }
{
    match kept {
        None => is_loop(descriptors, given),
        Some(kept) => descriptors == kept.as_slice(),
    }
}

/// Returns whether a description can have these descriptors, at most `most` bytes, as they are.
#[tactic(auto, unfolding(crate::specs::GivenLoops::can_be_kept))]
pub(crate) fn can_be_kept(most: usize, descriptors: &[u8]) -> bool
    ensures { result ≡ spec.can_be_kept most descriptors.now }
{
    descriptors.len() <= most && are_whole_descriptors(descriptors)
}

/// Returns a copy of descriptors, if a description can have them, and texts do not give exactly these.
#[tactic(auto, unfolding(crate::specs::GivenLoops::kept_loop))]
pub(crate) fn kept_loop<const N: usize>(
    alloc: Global,
    most: usize,
    given: &Option<ArrayVec<u8, N>>,
    descriptors: &[u8],
) -> Result<Option<Vec<u8>>, AllocError>
    ensures { IfOk result (λ kept. option_map (λ b. b.items) kept
        ≡ spec.kept_loop most (option_map (λ b. b.items) given.now) descriptors.now) }
{
    if is_loop(descriptors, given) || !can_be_kept(most, descriptors) {
        return Ok(None);
    }
    let mut kept = Vec::new(alloc);
    kept.extend_from_slice(descriptors)?;
    Ok(Some(kept))
}
