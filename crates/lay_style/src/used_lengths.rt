//! Lengths of a style as they are used: held within the bounds of used lengths.

ghost use Rattle.std.specs.Prelude.{◌≡◌};
ghost use Rattle.lay_units.specs.Units.{IsUsed, IsUsedSize};
ghost use Rattle.lay_style.specs.LengthValues.{length_of, size_of};

use lay_units::{Unit, clamp, clamp_size};

/// A length that may be negative.
pub fn length_of(length: Unit) -> Unit
    ensures value { result ≡ length_of length.0 }
    ensures used { IsUsed result.0 }
{
    clamp(i128::from(length.0))
}

/// A length that can't be negative.
pub fn size_of(length: Unit) -> Unit
    ensures value { result ≡ size_of length.0 }
    ensures used { IsUsed result.0 }
    ensures size { IsUsedSize result.0 }
{
    clamp_size(i128::from(length.0))
}
