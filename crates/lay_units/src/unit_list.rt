//! Lists of lengths.

ghost use Rattle.std.specs.Prelude.{◌≡◌};

use crate::Unit;
use std::marker::Model;

/// Lengths, in order.
#[derive(Drop)]
pub struct UnitList {
    items: Vec<Unit>,
}

impl Model for UnitList {
    ghost use Rattle.std.specs.Prelude.{List};
    ghost use Rattle.lay_units.specs.declared.length.Unit.{Unit};

    ghost Value = { List Unit };

    ghost view = { λ l. l.items.items };
}

impl UnitList {
    /// The list of these lengths, which is taken over without a copy.
    pub fn new(items: Vec<Unit>) -> UnitList
        ensures { result ≡ items.items }
    {
        UnitList { items }
    }

    /// The lengths, in order.
    pub fn as_slice(&self) -> &[Unit]
        ensures { result.now ≡ self.now }
    {
        self.items.as_slice()
    }
}
