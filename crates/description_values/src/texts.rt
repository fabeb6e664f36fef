//! Texts and languages as a description gives them.

ghost use Rattle.std.specs.Prelude.{◌≡◌, ◌≤◌, [], is_none, true};
ghost use Rattle.std.specs.List.{list_all};
ghost use Rattle.toml.specs.View.{view};
ghost use Rattle.description_values.specs.Values.{is_octet, is_beyond, text_in, text_at, text_or, is_letter, language_of};
ghost use Rattle.description_values.specs.Values.{language_in};
ghost use Rattle.description_values.specs.Values.{language_at, optional_language};

use dvb_tables::Text;
use toml::Value;

// States that each byte is an octet.
fn holds_octets(bytes: &[u8])
    ensures { list_all is_octet bytes.now ≡ true }
{
    let _ = bytes;
}

#[tactic(auto, using(crate::proofs::Octets::coded_octets))]
fn text<const N: usize>(value: &Value) -> Option<Text<N>>
    ensures { result ≡ text_in N (view value.now) }
{
    match value.as_str() {
        None => None,
        Some(text) => {
            holds_octets(text.as_bytes());
            Text::new(text).ok()
        }
    }
}

/// Returns the text at a key that has to be there.
pub fn text_at<const N: usize>(table: &Value, key: &str) -> Option<Text<N>>
    ensures { result ≡ text_at N key.now (view table.now) }
{
    match table.get(key) {
        None => None,
        Some(value) => text(value),
    }
}

/// Returns the empty text.
#[tactic(auto, unfolding(dvb_tables::specs::CharacterCoding::is_plain))]
pub fn empty_text<const N: usize>() -> Text<N>
    ensures { result ≡ [] }
{
    match Text::new("") {
        Ok(text) => text,
        Err(_) => unreachable!(),
    }
}

/// Returns the text at a key, empty if it is absent.
pub fn text_or_empty<const N: usize>(table: &Value, key: &str) -> Option<Text<N>>
    ensures { result ≡ text_or N key.now (view table.now) }
{
    match table.get(key) {
        None => Some(empty_text()),
        Some(value) => text(value),
    }
}

// Returns whether there is no text, or one of more than `most` bytes.
fn is_beyond(text: Option<Text<255>>, most: usize) -> bool
    ensures { result ≡ is_beyond most text }
{
    match text {
        None => true,
        Some(text) => text.as_bytes().len() > most,
    }
}

// Returns whether a value is no text of up to `most` bytes, as a descriptor has them.
fn is_no_text(value: &Value, most: usize) -> bool
    requires { most ≤ 255 }
    ensures { result ≡ is_none (text_in most (view value.now)) }
{
    is_beyond(text::<255>(value), most)
}

/// Returns whether there is no such text at a key.
pub fn has_no_text(table: &Value, key: &str, most: u8) -> bool
    ensures { result ≡ is_none (text_at most key.now (view table.now)) }
{
    match table.get(key) {
        None => true,
        Some(value) => is_no_text(value, most as usize),
    }
}

/// Returns whether there is another value than such a text at a key.
pub fn has_other_text(table: &Value, key: &str, most: u8) -> bool
    ensures { result ≡ is_none (text_or most key.now (view table.now)) }
{
    match table.get(key) {
        None => false,
        Some(value) => is_no_text(value, most as usize),
    }
}

// Returns the language, if the text is three letters.
fn language_of(text: &[u8]) -> Option<[u8; 3]>
    ensures { result ≡ language_of text.now }
{
    match text {
        [a, b, c] if is_letter(*a) && is_letter(*b) && is_letter(*c) => Some([*a, *b, *c]),
        _ => None,
    }
}

fn is_letter(byte: u8) -> bool
    ensures { result ≡ is_letter byte }
{
    byte.is_ascii_alphabetic()
}

fn language(value: &Value) -> Option<[u8; 3]>
    ensures { result ≡ language_in (view value.now) }
{
    match value.as_str() {
        None => None,
        Some(text) => language_of(text.as_bytes()),
    }
}

/// Returns the language at a key that has to be there.
pub fn language_at(table: &Value, key: &str) -> Option<[u8; 3]>
    ensures { result ≡ language_at key.now (view table.now) }
{
    match table.get(key) {
        None => None,
        Some(value) => language(value),
    }
}

/// Returns the language at a key that may be absent.
pub fn optional_language(table: &Value, key: &str) -> Option<Option<[u8; 3]>>
    ensures { result ≡ optional_language key.now (view table.now) }
{
    match table.get(key) {
        None => Some(None),
        Some(value) => language(value).map(Some),
    }
}
