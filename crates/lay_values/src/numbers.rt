//! Numbers.

ghost use Rattle.std.specs.Prelude.{◌≡◌, ◌+◌, ◌-◌, ◌*◌, ◌^◌, ◌<◌, ◌≤◌, pos, [], ◌∷◌, ◌++◌, length, IfSome, true};
ghost use Rattle.std.specs.List.{list_all};
ghost use Rattle.lay_units.specs.Units.{floor_div};
ghost use Rattle.lay_values.specs.Numbers.{is_digit, leading, behind, value_after, decimal_of};
ghost use Rattle.lay_values.specs.Numbers.{unsigned_of, number_of, negated, IsShort, signed, scaled};

/// A decimal number: `mantissa` over ten to the power `places`, below zero where `negative`.
#[derive(Clone, Copy)]
pub struct Decimal {
    pub negative: bool,
    /// Below 10^27.
    pub mantissa: u128,
    /// At most 18.
    pub places: u32,
}

/// The digits that a text begins with, and what stands behind them.
pub(crate) fn split_digits(text: &[u8]) -> (&[u8], &[u8])
    ensures digits { result.0.now ≡ leading is_digit text.now }
    ensures rest { result.1.now ≡ behind is_digit text.now }
{
    for (i, b) in text.iter().enumerate() {
        if !b.is_ascii_digit() {
            return text.split_at(i);
        }
    }
    text.split_at(text.len())
}

fn are_digits(text: &[u8]) -> bool
    ensures { result ≡ list_all is_digit text.now }
{
    text.iter().all(u8::is_ascii_digit)
}

/// The number with one more digit behind it.
fn with_digit(value: u128, digit: u8) -> u128
    requires digit { is_digit digit ≡ true }
    requires small { value < 10 ^ 26 }
    ensures { result ≡ 10 * value + (digit - 48) }
{
    10 * value + u128::from(digit - b'0')
}

/// The same, of few digits.
fn with_next(value: u64, digit: u8) -> u64
    requires digit { is_digit digit ≡ true }
    requires small { value < 10 ^ 9 }
    ensures { result ≡ 10 * value + (digit - 48) }
{
    10 * value + u64::from(digit - b'0')
}

/// The number that up to nine digits spell.
fn whole_value(digits: &[u8]) -> u64
    requires digits { list_all is_digit digits.now ≡ true }
    requires few { length digits.now ≤ 9 }
    ensures { result ≡ value_after 0 digits.now }
{
    let mut value: u64 = 0;
    for digit in digits {
        value = with_next(value, *digit);
    }
    value
}

/// The number that digits spell, when this value stands before them.
fn value_after(value: u128, digits: &[u8]) -> u128
    requires digits { list_all is_digit digits.now ≡ true }
    requires small { value_after value digits.now < 10 ^ 27 }
    ensures { result ≡ value_after value digits.now }
{
    let mut value = value;
    for digit in digits {
        value = with_digit(value, *digit);
    }
    value
}

/// The number that the digits before and behind a point spell together.
fn value_of(whole: &[u8], fraction: &[u8]) -> u128
    requires whole { list_all is_digit whole.now ≡ true }
    requires fraction { list_all is_digit fraction.now ≡ true }
    requires few_whole { length whole.now ≤ 9 }
    requires few_fraction { length fraction.now ≤ 18 }
    ensures value { result ≡ value_after 0 (whole.now ++ fraction.now) }
    ensures small { result < 10 ^ (9 + length fraction.now) }
{
    value_after(whole_value(whole) as u128, fraction)
}

/// The number of digits alone.
pub(crate) fn whole_number(whole: &[u8]) -> Option<Decimal>
    requires { list_all is_digit whole.now ≡ true }
    ensures value { result ≡ decimal_of whole.now [] }
    ensures short { IfSome result IsShort }
{
    if whole.is_empty() || whole.len() > 9 {
        return None;
    }
    Some(Decimal {
        negative: false,
        mantissa: value_of(whole, &[]),
        places: 0,
    })
}

/// The number of digits, a point and digits.
fn with_fraction(whole: &[u8], fraction: &[u8]) -> Option<Decimal>
    requires { list_all is_digit whole.now ≡ true }
    ensures value { result ≡ decimal_of whole.now (46 ∷ fraction.now) }
    ensures short { IfSome result IsShort }
{
    if whole.len() > 9 || !are_digits(fraction) || fraction.is_empty() || fraction.len() > 18 {
        return None;
    }
    Some(Decimal {
        negative: false,
        mantissa: value_of(whole, fraction),
        places: fraction.len() as u32,
    })
}

/// A number without a sign: digits, or digits that may be absent, a point and digits.
fn unsigned(text: &[u8]) -> Option<Decimal>
    ensures value { result ≡ unsigned_of text.now }
    ensures short { IfSome result IsShort }
{
    let (whole, rest) = split_digits(text);
    match rest {
        [] => whole_number(whole),
        [b'.', fraction @ ..] => with_fraction(whole, fraction),
        _ => None,
    }
}

fn negated(number: Decimal) -> Decimal
    requires { IsShort number }
    ensures value { result ≡ negated number }
    ensures short { IsShort result }
{
    Decimal {
        negative: true,
        ..number
    }
}

/// The number that a text is (CSS 2.2, 4.3.1).
pub(crate) fn number_of(text: &[u8]) -> Option<Decimal>
    ensures value { result ≡ number_of text.now }
    ensures short { IfSome result IsShort }
{
    match text {
        [b'+', rest @ ..] => unsigned(rest),
        [b'-', rest @ ..] => Some(negated(unsigned(rest)?)),
        _ => unsigned(text),
    }
}

/// A factor times a mantissa, below zero where `negative`.
fn signed_product(negative: bool, factor: u32, mantissa: u128) -> i128
    requires factor { factor ≤ 10 ^ 6 }
    requires mantissa { mantissa < 10 ^ 27 }
    ensures { result ≡ signed negative (factor * mantissa) }
{
    let size = (factor as u128 * mantissa) as i128;
    if negative { -size } else { size }
}

/// The greatest whole number that is at most `v` over `d`.
fn floor(v: i128, d: u128) -> i128
    requires positive { 0 < d }
    requires small { d < 10 ^ 22 }
    ensures { result ≡ floor_div v d }
{
    v.div_euclid(d as i128)
}

/// The number times `numerator` over `denominator`, rounded down.
pub(crate) fn scaled(number: Decimal, numerator: u32, denominator: u32) -> i128
    requires short { IsShort number }
    requires numerator { numerator ≤ 10 ^ 6 }
    requires positive { 0 < denominator }
    requires denominator { denominator ≤ 10 ^ 3 }
    ensures { result ≡ scaled numerator denominator number }
{
    let product = signed_product(number.negative, numerator, number.mantissa);
    if number.places == 0 {
        return floor(product, denominator as u128);
    }
    floor(product, denominator as u128 * 10u128.pow(number.places))
}
