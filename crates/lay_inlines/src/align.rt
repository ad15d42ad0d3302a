//! Where content stands in a line that is wider (CSS 2.2, 16.2).

ghost use Rattle.std.specs.Prelude.{◌≡◌, ◌≤ℤ◌, pos};
ghost use Rattle.std.specs.Int.{int_max};
ghost use Rattle.lay_inlines.specs.LinePieces.{aligned_shift};

use lay_units::{Unit, half};

/// The used value of `text-align`.
#[derive(Clone, Copy, Debug, PartialEq, Eq)]
pub enum Align {
    Left,
    Right,
    Center,
}

/// How far content moves that leaves this width free: nowhere where it leaves none.
pub fn shift_of(align: Align, free: Unit) -> Unit
    ensures shift { result.0 ≡ aligned_shift align free.0 }
    ensures low { pos 0 ≤ℤ result.0 }
    ensures high { result.0 ≤ℤ int_max (pos 0) free.0 }
{
    let free = Unit(free.0.max(0));
    match align {
        Align::Left => Unit(0),
        Align::Right => free,
        Align::Center => half(free).0,
    }
}
