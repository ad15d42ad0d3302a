//! Irrelevant boxes are removed (CSS 2.2, 17.2.1, the first stage).

ghost use Rattle.std.specs.Prelude.{◌≡◌, ◌++◌, ◌∷◌, [], None, List, OnOk, IfOk, IsTrue};
ghost use Rattle.std.specs.List.{list_any};
ghost use Rattle.lay_boxgen.specs.Boxes.{Tree, in_box};
ghost use Rattle.lay_boxgen.specs.Irrelevant.{column_group_children, is_descendant_or_none, is_irrelevant_in_container};
ghost use Rattle.lay_boxgen.specs.Irrelevant.{is_table_part_there, is_irrelevant_between, is_irrelevant};
ghost use Rattle.lay_boxgen.specs.Irrelevant.{is_table_part_box, kept_gap, kept_from, without_white_space, relevant};
ghost use Rattle.lay_boxgen.specs.Runs.{is_white_box};

use crate::facts::{Facts, Form};
use crate::forms::{
    is_column, is_column_group, is_in_flow, is_proper_table_descendant, is_table_part,
    is_tabular_container, is_white,
};
use crate::subtree::{BoxRule, Subtree};
use lay_units::NoMemory;
use std::alloc::Global;

/// Whether a neighbour, if there is one, is a proper table descendant of the container.
fn is_descendant_or_none(container: Form, neighbour: Option<Facts>) -> bool
    ensures { result ≡ is_descendant_or_none container neighbour }
{
    match neighbour {
        None => true,
        Some(facts) => {
            is_in_flow(facts.flow) && is_proper_table_descendant(container, facts.form)
        }
    }
}

/// Whether white space in a tabular container stands beside nothing but proper table descendants of it.
fn is_irrelevant_in_container(parent: Form, before: Option<Facts>, after: Option<Facts>) -> bool
    ensures { result ≡ is_irrelevant_in_container parent before after }
{
    is_tabular_container(parent)
        && is_descendant_or_none(parent, before)
        && is_descendant_or_none(parent, after)
}

/// Whether there is a neighbour that is a caption or an internal table box.
fn is_table_part_there(neighbour: Option<Facts>) -> bool
    ensures { result ≡ is_table_part_there neighbour }
{
    match neighbour {
        None => false,
        Some(facts) => is_in_flow(facts.flow) && is_table_part(facts.form),
    }
}

/// Whether white space stands between two captions or internal table boxes.
fn is_irrelevant_between(before: Option<Facts>, after: Option<Facts>) -> bool
    ensures { result ≡ is_irrelevant_between before after }
{
    is_table_part_there(before) && is_table_part_there(after)
}

/// Whether white space between these neighbours is irrelevant.
fn is_irrelevant(parent: Form, before: Option<Facts>, after: Option<Facts>) -> bool
    ensures { result ≡ is_irrelevant parent before after }
{
    is_irrelevant_in_container(parent, before, after) || is_irrelevant_between(before, after)
}

/// Children on the way: those that are kept, the last of them that is no white space, and the white space
/// since.
#[derive(Drop)]
struct Sifting {
    kept: Vec<Subtree>,
    before: Option<Facts>,
    gap: Vec<Subtree>,
}

impl Sifting {
    fn new(alloc: Global) -> Sifting
        ensures { (result.kept.items ≡ []) × (result.before ≡ None) × (result.gap.items ≡ []) }
    {
        Sifting {
            kept: Vec::new(alloc),
            before: None,
            gap: Vec::new(alloc),
        }
    }

    /// Keeps the white space or lets it go.
    fn end_gap(&mut self, alloc: Global, parent: Form, after: Option<Facts>) -> Result<(), NoMemory>
        ensures kept { OnOk result (self.new.kept.items ≡ self.old.kept.items ++ kept_gap parent self.old.before self.old.gap.items after) }
        ensures gap { OnOk result (self.new.gap.items ≡ []) }
        ensures before { self.new.before ≡ self.old.before }
    {
        if is_irrelevant(parent, self.before, after) {
            self.gap = Vec::new(alloc);
        } else {
            self.kept.append(&mut self.gap)?;
        }
        Ok(())
    }

    /// Takes the next child.
    fn take(&mut self, alloc: Global, parent: Form, child: Subtree) -> Result<(), NoMemory>
        ensures { OnOk result ((rest : List Tree) →
            self.new.kept.items ++ kept_from parent self.new.before self.new.gap.items rest
            ≡ self.old.kept.items ++ kept_from parent self.old.before self.old.gap.items (child ∷ rest)) }
    {
        let facts = child.facts();
        if is_white(facts.form) {
            self.gap.push(child)?;
        } else {
            self.end_gap(alloc, parent, Some(facts))?;
            self.before = Some(facts);
            self.kept.push(child)?;
        }
        Ok(())
    }
}

/// Whether white space is among these boxes.
fn has_white(boxes: &[Subtree]) -> bool
    ensures { result ≡ list_any is_white_box boxes.now }
{
    boxes.iter().any(|child| is_white(child.facts().form))
}

/// Whether a caption or an internal table box is among these boxes.
fn has_table_part(boxes: &[Subtree]) -> bool
    ensures { result ≡ list_any is_table_part_box boxes.now }
{
    boxes.iter().any(|child| is_table_part(child.facts().form))
}

/// Whether it is seen at once that no white space among the children is irrelevant.
fn has_no_irrelevant(parent: Form, children: &[Subtree]) -> bool
    ensures { IsTrue result → without_white_space parent children.now ≡ children.now }
{
    !has_white(children) || (!is_tabular_container(parent) && !has_table_part(children))
}

/// The children without irrelevant white space.
fn without_white_space(
    alloc: Global,
    parent: Form,
    children: Vec<Subtree>,
) -> Result<Vec<Subtree>, NoMemory>
    ensures { IfOk result (λ v. v.items ≡ without_white_space parent children.items) }
{
    if has_no_irrelevant(parent, children.as_slice()) {
        return Ok(children);
    }
    let mut sifting = Sifting::new(alloc);
    for child in children {
        sifting.take(alloc, parent, child)?;
    }
    sifting.end_gap(alloc, parent, None)?;
    Ok(sifting.kept)
}

/// The columns among the children of a column group.
fn column_group_children(alloc: Global, children: Vec<Subtree>) -> Result<Vec<Subtree>, NoMemory>
    ensures { IfOk result (λ v. v.items ≡ column_group_children children.items) }
{
    let mut columns = Vec::new(alloc);
    for child in children {
        if is_column(child.facts().form) {
            columns.push(child)?;
        }
    }
    Ok(columns)
}

/// The children of a box that aren't irrelevant.
fn relevant(alloc: Global, facts: Facts, children: Vec<Subtree>) -> Result<Vec<Subtree>, NoMemory>
    ensures { IfOk result (λ v. v.items ≡ relevant facts children.items) }
{
    if is_column(facts.form) {
        Ok(Vec::new(alloc))
    } else if is_column_group(facts.form) {
        column_group_children(alloc, children)
    } else {
        without_white_space(alloc, facts.form, children)
    }
}

/// Removes irrelevant boxes.
pub struct KeepRelevant;

impl BoxRule for KeepRelevant {
    ghost made = { in_box relevant };

    fn keeps(facts: Facts, children: &[Subtree]) -> bool {
        !is_column(facts.form)
            && !is_column_group(facts.form)
            && has_no_irrelevant(facts.form, children)
    }

    fn make(
        alloc: Global,
        facts: Facts,
        children: Vec<Subtree>,
        out: &mut Vec<Subtree>,
    ) -> Result<(), NoMemory> {
        let children = relevant(alloc, facts, children)?;
        out.push(Subtree::new(facts, children))?;
        Ok(())
    }
}
