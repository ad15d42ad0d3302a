//! Collapsing margins.

ghost use Rattle.std.specs.Prelude.{◌≡◌, ℤ, List, [], ◌∷◌, ◌++◌};
ghost use Rattle.std.specs.Int.{int_min, int_max};
ghost use Rattle.lay_margins.specs.Collapse.{Holds, collapse};

use lay_units::Unit;
use std::marker::Model;

/// Adjoining margins, kept as the two numbers that their collapse depends on. A strut holds the margins
/// that were added to it.
#[derive(Clone, Copy, Debug, PartialEq, Eq)]
pub struct Strut {
    /// The greatest of zero and the margins.
    positive: Unit,
    /// The least of zero and the margins.
    negative: Unit,
}

impl Model for Strut {
    ghost use Rattle.std.specs.Prelude.{pos, ◌≤ℤ◌};
    ghost use Rattle.lay_margins.specs.StrutValue.{StrutValue};

    ghost Value = { StrutValue };

    ghost view = { λ s. record { positive = s.positive.0; negative = s.negative.0 } };

    ghost inverse = { λ v. record { positive = record { 0 = v.positive }; negative = record { 0 = v.negative } } };

    ghost invariant = { λ s. (pos 0 ≤ℤ s.positive.0) × (s.negative.0 ≤ℤ pos 0) };
}

impl Strut {
    /// The strut that holds no margin.
    pub fn zero() -> Strut
        ensures { Holds result [] }
    {
        Strut {
            positive: Unit(0),
            negative: Unit(0),
        }
    }

    /// This strut with one more margin, of any length.
    pub fn add(self, margin: Unit) -> Strut
        ensures { (margins : List ℤ) → Holds self margins → Holds result (margins ++ margin.0 ∷ []) }
    {
        Strut {
            positive: greater(self.positive, margin),
            negative: lesser(self.negative, margin),
        }
    }

    /// The strut that holds the margins of both.
    pub fn join(self, other: Strut) -> Strut
        ensures { (margins others : List ℤ) → Holds self margins → Holds other others → Holds result (margins ++ others) }
    {
        Strut {
            positive: greater(self.positive, other.positive),
            negative: lesser(self.negative, other.negative),
        }
    }

    /// What the margins collapse to.
    pub fn sum(self) -> Unit
        ensures { (margins : List ℤ) → Holds self margins → result.0 ≡ collapse margins }
    {
        Unit(self.positive.0 + self.negative.0)
    }
}

fn greater(a: Unit, b: Unit) -> Unit
    ensures { result.0 ≡ int_max a.0 b.0 }
{
    Unit(a.0.max(b.0))
}

fn lesser(a: Unit, b: Unit) -> Unit
    ensures { result.0 ≡ int_min a.0 b.0 }
{
    Unit(a.0.min(b.0))
}
