//! Trees of boxes, and making them anew.

ghost use Rattle.std.specs.Prelude.{◌≡◌, ◌++◌, ◌∷◌, [], List, OnOk, IfOk, IsTrue};
ghost use Rattle.lay_boxgen.specs.declared.facts.Facts.{Facts};
ghost use Rattle.lay_boxgen.specs.Boxes.{Tree, tree, trees_of, facts_of, remade, all_remade};

use crate::facts::Facts;
use lay_units::NoMemory;
use std::alloc::Global;
use std::marker::Model;

/// A box with the trees of its children.
#[derive(Drop)]
pub struct Subtree {
    pub facts: Facts,
    pub children: Vec<Subtree>,
}

impl Model for Subtree {
    ghost use Rattle.std.specs.Prelude.{List, Option};
    ghost use Rattle.std.specs.Coded.{code_by, codes};
    ghost use Rattle.std.proofs.Common.{arith};
    ghost use Rattle.lay_boxgen.specs.declared.facts.Facts.{Facts};
    ghost use Rattle.lay_boxgen.specs.contracts.facts.Facts as facts_row;
    ghost use Rattle.lay_boxgen.specs.Boxes.{Tree, tree, trees_of, weight};
    ghost use Rattle.lay_boxgen.specs.Stored.{most_le-weight, stored, restored, restored-stored};

    ghost Value = { Tree };

    ghost coded = { code_by (Facts × List (Option Facts)) (Prim.hlevel (codes, facts_row.the_row.coded)) stored restored restored-stored };

    ghost view = { λ s. tree s.facts (trees_of s.children.items) };

    ghost size = { weight };

    ghost size_decreases = { λ s h. omega (arith, most_le-weight s.children.items) };
}

impl Subtree {
    /// A box with these children.
    pub fn new(facts: Facts, children: Vec<Subtree>) -> Subtree
        ensures { result ≡ tree facts (trees_of children.items) }
    {
        Subtree { facts, children }
    }

    /// What is known of the box.
    pub fn facts(&self) -> Facts
        ensures { result ≡ facts_of self.now }
    {
        self.facts
    }
}

/// A rule of box generation: which boxes stand for a box, of what its children became.
pub trait BoxRule {
    ghost made: { Facts → List Tree → List Tree };

    /// Whether it is seen at once that a box with these children stands for itself.
    fn keeps(facts: Facts, children: &[Subtree]) -> bool
        ensures { IsTrue result → made facts children.now ≡ tree facts (trees_of children.now) ∷ [] };

    /// Puts the boxes at the end of `out`.
    fn make(
        alloc: Global,
        facts: Facts,
        children: Vec<Subtree>,
        out: &mut Vec<Subtree>,
    ) -> Result<(), NoMemory>
        ensures { OnOk result (out.new.items ≡ out.old.items ++ made facts children.items) };
}

/// Puts what a rule makes of a tree at the end of `out`.
#[cycle(remake)]
fn remake<R: BoxRule>(alloc: Global, tree: Subtree, out: &mut Vec<Subtree>) -> Result<(), NoMemory>
    ensures { OnOk result (out.new.items ≡ out.old.items ++ remade R.made tree) }
{
    let Subtree { facts, children } = tree;
    let children = remake_all::<R>(alloc, children)?;
    R::make(alloc, facts, children, out)
}

/// Whether it is seen at once that a rule leaves a tree as it is.
#[cycle(keeps)]
fn keeps_tree<R: BoxRule>(tree: &Subtree) -> bool
    ensures { IsTrue result → remade R.made tree.now ≡ tree.now ∷ [] }
{
    let children = tree.children.as_slice();
    (children.is_empty() || keeps_all::<R>(children)) && R::keeps(tree.facts, children)
}

/// The same of some trees.
#[cycle(keeps)]
fn keeps_all<R: BoxRule>(trees: &[Subtree]) -> bool
    ensures { IsTrue result → all_remade R.made (trees_of trees.now) ≡ trees.now }
{
    for tree in trees {
        if !keeps_tree::<R>(tree) {
            return false;
        }
    }
    true
}

/// What a rule makes of some trees: nothing new, where each box stands for itself.
pub fn remade<R: BoxRule>(alloc: Global, trees: Vec<Subtree>) -> Result<Vec<Subtree>, NoMemory>
    ensures { IfOk result (λ v. v.items ≡ all_remade R.made (trees_of trees.items)) }
{
    if keeps_all::<R>(trees.as_slice()) {
        return Ok(trees);
    }
    remake_all::<R>(alloc, trees)
}

/// What a rule makes of some trees. It goes as deep as the boxes are nested, which the document's depth
/// bounds.
#[cycle(remake)]
fn remake_all<R: BoxRule>(alloc: Global, trees: Vec<Subtree>) -> Result<Vec<Subtree>, NoMemory>
    ensures { IfOk result (λ v. v.items ≡ all_remade R.made (trees_of trees.items)) }
{
    let mut out = Vec::new(alloc);
    for tree in trees {
        remake::<R>(alloc, tree, &mut out)?;
    }
    Ok(out)
}
