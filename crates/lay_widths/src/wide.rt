//! Sums of lengths, which don't fit a length.

ghost use Rattle.std.specs.Prelude.{◌≡◌, ◌+ℤ◌, ◌-ℤ◌};
ghost use Rattle.lay_units.specs.Units.{IsPosition, half_of};
ghost use Rattle.lay_widths.specs.Lengths.{or_zero, IsBelow, LenFits};

use lay_units::Len;

/// The sum of two lengths, which are below 2^100 units of 1/64 px in absolute value.
pub fn sum(a: i128, b: i128) -> i128
    requires a { IsBelow 100 a }
    requires b { IsBelow 100 b }
    ensures { result ≡ a +ℤ b }
{
    a + b
}

/// The first length less the second; both are below 2^100 units of 1/64 px in absolute value.
pub fn difference(a: i128, b: i128) -> i128
    requires a { IsBelow 100 a }
    requires b { IsBelow 100 b }
    ensures { result ≡ a -ℤ b }
{
    a - b
}

/// Half of a length, rounded down.
pub fn floor_half(v: i128) -> i128
    ensures { result ≡ half_of v }
{
    v.div_euclid(2)
}

/// A length, and zero for `auto`.
pub fn length_or_zero(len: Len) -> i128
    requires { LenFits len }
    ensures value { result ≡ or_zero len }
    ensures fits { IsPosition result }
{
    match len {
        Len::Auto => 0,
        Len::Of(v) => i128::from(v.0),
    }
}
