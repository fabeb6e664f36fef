//! Values of keys: numbers and booleans.

ghost use Rattle.std.specs.Prelude.{◌≡◌, ◌≤◌, pos, IfSome, is_none, unwrap_or};
ghost use Rattle.toml.specs.View.{view};
ghost use Rattle.description_values.specs.Values.{in_range, integer_in, integer_at, integer_or, optional_integer};
ghost use Rattle.description_values.specs.Values.{boolean_or};
ghost use Rattle.description_values.specs.Values.{is_distinct};

use toml::Value;

/// Returns the number of a value from `low` to `high`.
pub fn integer_in(value: &Value, low: u64, high: u64) -> Option<u64>
    ensures value { result ≡ integer_in (pos low) (pos high) (view value.now) }
    ensures range { IfSome result (λ n. n ≤ high) }
{
    match value.as_integer() {
        None => None,
        Some(number) => within(number, low, high),
    }
}

/// Returns a number from `low` to `high`; `None` if it is outside of them.
pub fn within(number: i64, low: u64, high: u64) -> Option<u64>
    ensures value { result ≡ in_range (pos low) (pos high) number }
    ensures range { IfSome result (λ n. n ≤ high) }
{
    if number < 0 {
        return None;
    }
    let number = number as u64;
    if low <= number && number <= high {
        Some(number)
    } else {
        None
    }
}

/// Returns the number at a key that has to be there.
pub fn integer_at(table: &Value, key: &str, low: u64, high: u64) -> Option<u64>
    ensures value { result ≡ integer_at key.now (pos low) (pos high) (view table.now) }
    ensures range { IfSome result (λ n. n ≤ high) }
{
    match table.get(key) {
        None => None,
        Some(value) => integer_in(value, low, high),
    }
}

/// Returns the number at a key with a default.
pub fn integer_or(default: u64, table: &Value, key: &str, low: u64, high: u64) -> Option<u64>
    requires { default ≤ high }
    ensures value { result ≡ integer_or default key.now (pos low) (pos high) (view table.now) }
    ensures range { IfSome result (λ n. n ≤ high) }
{
    match table.get(key) {
        None => Some(default),
        Some(value) => integer_in(value, low, high),
    }
}

/// Returns the number at a key that may be absent.
pub fn optional_integer(table: &Value, key: &str, low: u64, high: u64) -> Option<Option<u64>>
    ensures value { result ≡ optional_integer key.now (pos low) (pos high) (view table.now) }
    ensures range { IfSome result (λ o. IfSome o (λ n. n ≤ high)) }
{
    match table.get(key) {
        None => Some(None),
        Some(value) => integer_in(value, low, high).map(Some),
    }
}

/// Returns whether a key has a value that is no number from `low` to `high`; a default takes the place of an absent key.
pub fn has_no_number(default: u64, table: &Value, key: &str, low: u64, high: u64) -> bool
    ensures { result ≡ is_none (integer_or default key.now (pos low) (pos high) (view table.now)) }
{
    let _ = default;
    match table.get(key) {
        None => false,
        Some(value) => integer_in(value, low, high).is_none(),
    }
}

/// Returns the number at a key that has to be there; `low` if the key is refused.
pub fn number_at(table: &Value, key: &str, low: u64, high: u64) -> u64
    requires { low ≤ high }
    ensures value { result ≡ unwrap_or (integer_at key.now (pos low) (pos high) (view table.now)) low }
    ensures range { result ≤ high }
{
    match integer_at(table, key, low, high) {
        None => low,
        Some(number) => number,
    }
}

/// Returns the number at a key with a default; `low` if the key is refused.
pub fn number_or(default: u64, table: &Value, key: &str, low: u64, high: u64) -> u64
    requires order { low ≤ high }
    requires default { default ≤ high }
    ensures value { result ≡ unwrap_or (integer_or default key.now (pos low) (pos high) (view table.now)) low }
    ensures range { result ≤ high }
{
    match integer_or(default, table, key, low, high) {
        None => low,
        Some(number) => number,
    }
}

/// Returns the boolean at a key with a default.
pub fn boolean_or(default: bool, table: &Value, key: &str) -> Option<bool>
    ensures { result ≡ boolean_or default key.now (view table.now) }
{
    match table.get(key) {
        None => Some(default),
        Some(value) => value.as_bool(),
    }
}

/// Returns whether no number is in a list twice.
pub fn is_distinct(numbers: &[u16]) -> bool
    ensures { result ≡ is_distinct numbers.now }
{
    let mut rest = numbers;
    while let Some((first, after)) = rest.split_first() {
        if after.contains(first) {
            return false;
        }
        rest = after;
    }
    true
}
