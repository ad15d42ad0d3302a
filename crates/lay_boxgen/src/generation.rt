//! Box generation, rule after rule (CSS 2.2, 9.2 and 17.2.1).

ghost use Rattle.std.specs.Prelude.{◌≡◌, IfOk};
ghost use Rattle.lay_boxgen.specs.Generation.{generated};

use crate::broken_inlines::BreakInlines;
use crate::inline_runs::WrapRuns;
use crate::irrelevant::KeepRelevant;
use crate::missing_children::WrapChildren;
use crate::missing_parents::AddParents;
use crate::staying::stays;
use crate::subtree::{Subtree, remade};
use crate::table_wrappers::FillWrappers;
use lay_units::NoMemory;
use std::alloc::Global;

/// The boxes that stand for a tree of boxes in the end.
pub fn generate(alloc: Global, tree: Subtree) -> Result<Vec<Subtree>, NoMemory>
    ensures { IfOk result (λ v. v.items ≡ generated tree) }
{
    let unchanged = stays(&tree);
    let mut trees = Vec::with_capacity(alloc, 1)?;
    trees.push(tree)?;
    if unchanged {
        return Ok(trees);
    }
    let trees = remade::<KeepRelevant>(alloc, trees)?;
    let trees = remade::<WrapChildren>(alloc, trees)?;
    let trees = remade::<AddParents>(alloc, trees)?;
    let trees = remade::<FillWrappers>(alloc, trees)?;
    let trees = remade::<BreakInlines>(alloc, trees)?;
    remade::<WrapRuns>(alloc, trees)
}
