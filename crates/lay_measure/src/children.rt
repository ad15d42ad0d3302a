//! What the children of a box come to.

ghost use Rattle.std.specs.Prelude.{List, ◌≡◌, ◌∷◌, ◌++◌, IfOk};
ghost use Rattle.lay_measure.specs.Children.{Child, block, block_widths, child_as, float, inline};
ghost use Rattle.lay_measure.specs.ChildTotals.{totals_of};

use crate::preferred_widths::PreferredWidths;
use crate::sums::{greater, sum};
use lay_box_tree::Role;
use lay_units::{NoMemory, Unit};

/// What some children of a box come to: whether one is inline-level, the greatest preferred minimum width, how wide
/// the floats are that come first, and the greatest preferred width behind them.
#[derive(Clone, Copy)]
pub struct ChildTotals {
    pub lines: bool,
    pub minimum: Unit,
    pub floats_first: Unit,
    pub after: Unit,
}

/// No child.
pub(crate) const NO_CHILDREN: ChildTotals = ChildTotals {
    lines: false,
    minimum: Unit(0),
    floats_first: Unit(0),
    after: Unit(0),
};

impl ChildTotals {
    /// With a child of this role before these, which takes so much.
    pub(crate) fn behind(self, role: Role, widths: PreferredWidths) -> Result<ChildTotals, NoMemory>
        ensures { IfOk result (λ t. (cs : List Child) → self ≡ totals_of cs → t ≡ totals_of (child_as role widths ++ cs)) }
    {
        match role {
            Role::Block | Role::Solid => Ok(self.behind_block(widths)),
            Role::LeftFloat | Role::RightFloat => self.behind_float(widths),
            Role::Inline | Role::Text | Role::Atomic => Ok(self.behind_inline()),
            Role::Anchor | Role::Own | Role::TablePart => Ok(self),
        }
    }

    fn behind_block(self, widths: PreferredWidths) -> ChildTotals
        ensures { (cs : List Child) → self ≡ totals_of cs → result ≡ totals_of (block widths ∷ cs) }
    {
        ChildTotals {
            lines: self.lines,
            minimum: greater(widths.minimum, self.minimum),
            floats_first: Unit(0),
            after: greater(widths.preferred, greater(self.floats_first, self.after)),
        }
    }

    fn behind_float(self, widths: PreferredWidths) -> Result<ChildTotals, NoMemory>
        ensures { IfOk result (λ t. (cs : List Child) → self ≡ totals_of cs → t ≡ totals_of (float widths ∷ cs)) }
    {
        Ok(ChildTotals {
            lines: self.lines,
            minimum: greater(widths.minimum, self.minimum),
            floats_first: sum(widths.preferred, self.floats_first)?,
            after: self.after,
        })
    }

    fn behind_inline(self) -> ChildTotals
        ensures { (cs : List Child) → self ≡ totals_of cs → result ≡ totals_of (inline ∷ cs) }
    {
        ChildTotals {
            lines: true,
            minimum: self.minimum,
            floats_first: Unit(0),
            after: greater(self.floats_first, self.after),
        }
    }

    /// The preferred widths of a box with these children, which are all blocks or floats.
    pub(crate) fn widths(self) -> PreferredWidths
        ensures { (cs : List Child) → self ≡ totals_of cs → result ≡ block_widths cs }
    {
        PreferredWidths {
            minimum: self.minimum,
            preferred: greater(self.floats_first, self.after),
        }
    }
}
