//! Words and numbers, read at the front of a text.

ghost use Rattle.std.specs.Prelude.{◌≡◌, ◌^◌, ◌<◌, ◌≤◌, option_map, IfSome};
ghost use Rattle.slot_plan.specs.Words.{after_word, more_digits, number_before, field_at, after_number};

/// Each number of a field is below this.
pub const NUMBER_LIMIT: u64 = 1_000_000_000_000_000_000;

/// Returns the text after a word.
pub fn after_word<'a>(word: &[u8], text: &'a [u8]) -> Option<&'a [u8]>
    ensures { option_map (λ rest. rest.now) result ≡ after_word word.now text.now }
{
    text.strip_prefix(word)
}

/// Returns a number below `limit`, without a leading zero, and the text after the byte that ends it.
pub fn number_before(ending: u8, limit: u64, text: &[u8]) -> Option<(u64, &[u8])>
    requires { limit ≤ 10 ^ 18 }
    ensures read { option_map (λ read. (read.0, read.1.now)) result ≡ number_before ending limit text.now }
    ensures below { IfSome result (λ read. read.0 < limit) }
{
    let (first, rest) = text.split_first()?;
    if !first.is_ascii_digit() {
        return None;
    }
    let number = (*first - b'0') as u64;
    if number < limit {
        more_digits(ending, limit, number, rest)
    } else {
        None
    }
}

/// Returns the number whose first digits make `number`, and the text after the byte that ends it.
fn more_digits(ending: u8, limit: u64, mut number: u64, text: &[u8]) -> Option<(u64, &[u8])>
    requires limit { limit ≤ 10 ^ 18 }
    requires below { number < limit }
    ensures read { option_map (λ read. (read.0, read.1.now)) result ≡ more_digits ending limit number text.now }
    ensures below { IfSome result (λ read. read.0 < limit) }
{
    for (i, byte) in text.iter().enumerate() {
        if byte.is_ascii_digit() {
            let next = number * 10 + (*byte - b'0') as u64;
            if number == 0 || next >= limit {
                return None;
            }
            number = next;
        } else if *byte == ending {
            return Some((number, &text[i + 1..]));
        } else {
            return None;
        }
    }
    None
}

/// Returns a word with its space, a number below 10^18, and the text after the byte that ends it.
pub fn field_at<'a>(word: &[u8], ending: u8, text: &'a [u8]) -> Option<(u64, &'a [u8])>
    ensures { option_map (λ read. (read.0, read.1.now)) result ≡ field_at word.now ending text.now }
{
    number_before(ending, NUMBER_LIMIT, after_word(word, text)?)
}

/// Returns a word with its space, the number given, and the text after the space after it.
pub fn after_number<'a>(word: &[u8], number: u64, text: &'a [u8]) -> Option<&'a [u8]>
    ensures { option_map (λ rest. rest.now) result ≡ after_number word.now number text.now }
{
    let (found, rest) = field_at(word, b' ', text)?;
    if found == number { Some(rest) } else { None }
}
