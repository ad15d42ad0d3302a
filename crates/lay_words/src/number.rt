//! The number of an option.

ghost use Rattle.std.specs.Prelude.{◌≡◌, ◌≤◌, ◌<◌, map, length};
ghost use Rattle.lay_words.specs.Grammar.{all_digits, value_from, number_in, number_of};

fn all_digits(text: &[u8]) -> bool
    ensures { result ≡ all_digits text.now }
{
    text.iter().all(|b| b.is_ascii_digit())
}

/// The number of these decimal digits.
fn value(digits: &[u8]) -> u64
    requires { length digits.now ≤ 10 }
    ensures { result ≡ value_from 0 digits.now }
{
    let mut n: u64 = 0;
    for digit in digits {
        n = n * 10 + u64::from(digit.saturating_sub(b'0'));
    }
    n
}

/// The number of 1 to 10 decimal digits, where it is in the range.
fn number_in(text: &str, low: u32, high: u32) -> Option<u32>
    ensures { result ≡ number_in low high text.now }
{
    let bytes = text.as_bytes();
    if bytes.is_empty() || bytes.len() > 10 || !all_digits(bytes) {
        return None;
    }
    let n = value(bytes);
    if u64::from(low) <= n && n <= u64::from(high) {
        Some(n as u32)
    } else {
        None
    }
}

/// The number of an option by the values that it was given: the default where there is none, and no number where
/// there are several.
pub(crate) fn number_of(default: Option<u32>, low: u32, high: u32, values: &[&str]) -> Option<u32>
    ensures { result ≡ number_of default low high (map (λ v. v.now) values.now) }
{
    match values.split_first() {
        None => default,
        Some((value, others)) => {
            if others.is_empty() {
                number_in(value, low, high)
            } else {
                None
            }
        }
    }
}
