//! How far the parts of a line are raised.

ghost use Rattle.std.specs.Prelude.{◌≡◌, ◌∷◌, []};

use lay_units::Unit;
use std::marker::Model;

/// How far the baseline of each part of a line stands above the strut's, in order.
#[derive(Drop)]
pub struct ShiftList {
    shifts: Shifts,
}

/// The shifts of a line. Most lines are of text alone, and have their strut's only: it lies where the line does.
#[derive(Drop)]
enum Shifts {
    One([Unit; 1]),
    Many(Vec<Unit>),
}

impl Model for ShiftList {
    ghost use Rattle.std.specs.Prelude.{List};
    ghost use Rattle.lay_units.specs.declared.length.Unit.{Unit};
    ghost use Rattle.lay_valign.specs.ShiftLists.{shifts_in};

    ghost Value = { List Unit };

    ghost view = { λ l. shifts_in l.shifts };
}

impl ShiftList {
    /// The list of these, which is taken over without a copy.
    pub fn new(items: Vec<Unit>) -> ShiftList
        ensures { result ≡ items.items }
    {
        ShiftList {
            shifts: Shifts::Many(items),
        }
    }

    /// The list of this one.
    pub fn one(shift: Unit) -> ShiftList
        ensures { result ≡ shift ∷ [] }
    {
        ShiftList {
            shifts: Shifts::One([shift]),
        }
    }

    /// The shifts, in order.
    pub fn as_slice(&self) -> &[Unit]
        ensures { result.now ≡ self.now }
    {
        match &self.shifts {
            Shifts::One(shifts) => shifts,
            Shifts::Many(shifts) => shifts.as_slice(),
        }
    }
}
