//! Numbers of the search: products and sums that stop at the greatest number in place of wrapping, and quotients that
//! are rounded up. No product of a description's numbers comes near 128 bits.

ghost use Rattle.std.specs.Prelude.{◌≡◌, max, min};
ghost use Rattle.plan_maker.specs.Bounded as spec;
ghost use Rattle.plan_maker.specs.Joined as joined;

/// Returns the product of the factors; the greatest number if it would be more.
pub fn product(factors: &[u128]) -> u128
    ensures { result ≡ spec.product factors.now }
{
    let mut product: u128 = 1;
    for factor in factors {
        product = product.saturating_mul(*factor);
    }
    product
}

/// Returns the sum; the greatest number if it would be more.
pub fn plus(a: u128, b: u128) -> u128
    ensures { result ≡ spec.plus a b }
{
    a.saturating_add(b)
}

/// Returns the difference; None if it would be less than 0.
pub fn less(a: u128, b: u128) -> Option<u128>
    ensures { result ≡ spec.less a b }
{
    if b <= a { Some(a - b) } else { None }
}

/// Returns the quotient, rounded up; None of a division by 0.
pub fn rounded_up(dividend: u128, divisor: u128) -> Option<u128>
    ensures { result ≡ spec.rounded_up dividend divisor }
{
    if divisor == 0 {
        None
    } else {
        Some(dividend.div_ceil(divisor))
    }
}

/// Returns the number, or the greatest number of 64 bits if it has more.
pub fn narrowed(number: u128) -> u64
    ensures { result ≡ spec.narrowed number }
{
    match u64::try_from(number) {
        Ok(number) => number,
        Err(_) => u64::MAX,
    }
}

/// Returns the number, narrowed, if there is one.
pub fn all_narrowed(number: Option<u128>) -> Option<u64>
    ensures { result ≡ spec.all_narrowed number }
{
    match number {
        None => None,
        Some(number) => Some(narrowed(number)),
    }
}

/// Returns the greater of two numbers.
pub fn most(a: u128, b: u128) -> u128
    ensures { result ≡ max a b }
{
    if a < b { b } else { a }
}

/// Returns the lesser of two numbers.
pub fn least(a: u128, b: u128) -> u128
    ensures { result ≡ min a b }
{
    if a < b { a } else { b }
}

/// Returns the greater of two numbers; None if either is missing.
pub fn greater(a: Option<u128>, b: Option<u128>) -> Option<u128>
    ensures { result ≡ joined.greater a b }
{
    match (a, b) {
        (Some(a), Some(b)) => Some(if a < b { b } else { a }),
        _ => None,
    }
}

/// Returns the lesser of two numbers; None if either is missing.
pub fn lesser(a: Option<u128>, b: Option<u128>) -> Option<u128>
    ensures { result ≡ joined.lesser a b }
{
    match (a, b) {
        (Some(a), Some(b)) => Some(if a < b { a } else { b }),
        _ => None,
    }
}
