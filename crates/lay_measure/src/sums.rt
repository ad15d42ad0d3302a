//! Sums of lengths.

ghost use Rattle.std.specs.Prelude.{◌≡◌, ◌+ℤ◌, IfOk};
ghost use Rattle.std.specs.Int.{int_max};

use lay_units::{NoMemory, Unit};

/// The sum of two lengths. NoMemory is the answer where it isn't within 2^63 units of 0, as no sum of a document
/// within its limits is.
pub fn sum(a: Unit, b: Unit) -> Result<Unit, NoMemory>
    ensures { IfOk result (λ v. v ≡ record { 0 = a.0 +ℤ b.0 }) }
{
    match a.0.checked_add(b.0) {
        Some(sum) => Ok(Unit(sum)),
        None => Err(NoMemory),
    }
}

/// The sum of three.
pub(crate) fn sum_of_three(a: Unit, b: Unit, c: Unit) -> Result<Unit, NoMemory>
    ensures { IfOk result (λ v. v ≡ record { 0 = a.0 +ℤ b.0 +ℤ c.0 }) }
{
    sum(sum(a, b)?, c)
}

/// The greater of two.
pub fn greater(a: Unit, b: Unit) -> Unit
    ensures { result ≡ record { 0 = int_max a.0 b.0 } }
{
    Unit(a.0.max(b.0))
}
