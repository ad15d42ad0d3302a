//! Trees of boxes that no rule of box generation changes, as those of most contexts are: one walk sees it at once.

ghost use Rattle.std.specs.Prelude.{◌∷◌, [], IsTrue};
ghost use Rattle.lay_boxgen.specs.Staying.{KeepsChildren, StayTheSame};

use crate::broken_inlines::BreakInlines;
use crate::facts::Facts;
use crate::inline_runs::WrapRuns;
use crate::irrelevant::KeepRelevant;
use crate::missing_children::WrapChildren;
use crate::missing_parents::AddParents;
use crate::subtree::{BoxRule, Subtree};
use crate::table_wrappers::FillWrappers;

/// Whether it is seen at once that each rule leaves a tree as it is.
#[cycle(stay)]
pub(crate) fn stays(tree: &Subtree) -> bool
    ensures { IsTrue result → StayTheSame (tree.now ∷ []) }
{
    let children = tree.children.as_slice();
    keeps(tree.facts, children) && (children.is_empty() || stay(children))
}

/// The same of some trees.
#[cycle(stay)]
fn stay(trees: &[Subtree]) -> bool
    ensures { IsTrue result → StayTheSame trees.now }
{
    for tree in trees {
        if !stays(tree) {
            return false;
        }
    }
    true
}

/// Whether it is seen at once that a box with these children stands for itself by each rule.
fn keeps(facts: Facts, children: &[Subtree]) -> bool
    ensures { IsTrue result → KeepsChildren facts children.now }
{
    KeepRelevant::keeps(facts, children)
        && WrapChildren::keeps(facts, children)
        && AddParents::keeps(facts, children)
        && FillWrappers::keeps(facts, children)
        && BreakInlines::keeps(facts, children)
        && WrapRuns::keeps(facts, children)
}
