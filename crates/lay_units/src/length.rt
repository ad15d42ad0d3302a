//! Lengths and percentages.

ghost use Rattle.std.specs.Prelude.{◌≡◌, ◌+ℤ◌, ◌*ℤ◌};
ghost use Rattle.lay_units.specs.Lengths.{is_nonzero};
ghost use Rattle.lay_units.specs.Units.{clamp_of, clamp_size_of, percentage_of, half_of};

/// A length or a position, in 1/64 px.
#[derive(Clone, Copy, Debug, PartialEq, Eq, PartialOrd, Ord)]
pub struct Unit(pub i64);

/// A percentage, in hundredths of a percent.
#[derive(Clone, Copy, Debug, PartialEq, Eq)]
pub struct Percent(pub i32);

/// The greatest absolute value of a used length: 2^31 units.
const LIMIT: i128 = 2147483648;

/// The nearest length of at most 2^31 units in absolute value.
pub fn clamp(v: i128) -> Unit
    ensures { result.0 ≡ clamp_of v }
{
    Unit(v.clamp(-LIMIT, LIMIT) as i64)
}

/// The nearest length from 0 to 2^31 units.
pub fn clamp_size(v: i128) -> Unit
    ensures { result.0 ≡ clamp_size_of v }
{
    Unit(v.clamp(0, LIMIT) as i64)
}

/// A percentage of a length, rounded down and clamped.
pub fn percent_of(p: Percent, base: Unit) -> Unit
    ensures { result.0 ≡ percentage_of p.0 base.0 }
{
    clamp(product(p.0, base.0).div_euclid(10000))
}

fn product(a: i32, b: i64) -> i128
    ensures { result ≡ a *ℤ b }
{
    a as i128 * b as i128
}

/// A length in two parts: the floor of its half, and the rest.
pub fn half(v: Unit) -> (Unit, Unit)
    ensures floor { result.0.0 ≡ half_of v.0 }
    ensures rest { result.0.0 +ℤ result.1.0 ≡ v.0 }
{
    let floor = v.0.div_euclid(2);
    (Unit(floor), Unit(v.0 - floor))
}

/// Whether a number of units, or of hundredths of a percent, isn't 0.
pub fn is_nonzero(number: i64) -> bool
    ensures { result ≡ is_nonzero number }
{
    number != 0
}
