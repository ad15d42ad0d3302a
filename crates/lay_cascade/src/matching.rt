//! Whether a selector matches a node.

ghost use Rattle.std.specs.Prelude.{◌≡◌, ◌≢◌, ◌<◌, ◌∷◌, ◌↔◌, ℕ, [], Some, None, IfOk, OnOk, length, slice_index, slice_index_or};
ghost use Rattle.lay_cascade.specs.Matching.{Stands, IsMatched, Says};
ghost use Rattle.lay_cascade.specs.ClassSets.{AreSets};
ghost use Rattle.lay_cascade.specs.Rising.{IsNamed, AreWithin, IsRising, AreBefore, with_fitting};

use crate::class_sets::ClassSet;
use crate::names::fits_at;
use crate::node_names::Names;
use lay_doc::{Node, parent_at};
use lay_sheet::{Joint, Simple, Step};
use lay_units::NoMemory;
use std::alloc::Global;

/// A document's nodes with what they are called, the place of the sibling before each that isn't a text, and the sets of their classes.
#[derive(Clone, Copy)]
pub struct Named<'a> {
    pub nodes: &'a [Node],
    pub names: &'a [Names],
    pub adjacent: &'a [Option<usize>],
    pub sets: &'a [ClassSet<'a>],
}

/// The parent of the node at a place; the root has none.
fn parent_of(nodes: &[Node], place: usize) -> Option<usize>
    requires { place < length nodes.now }
    ensures { (m : ℕ) → (result ≡ Some m) ↔ Stands nodes.now Joint.Child m place }
{
    if place == 0 {
        return None;
    }
    Some(parent_at(nodes, place))
}

/// The sibling before the node at a place.
fn adjacent_to(adjacent: &[Option<usize>], place: usize) -> Option<usize>
    requires { place < length adjacent.now }
    ensures { result ≡ slice_index_or adjacent.now place None }
{
    adjacent[place]
}

/// The one node to which the node at a place stands as a joint says. There may be many that it is a descendant of.
pub(crate) fn before(named: Named<'_>, joint: Joint, place: usize) -> Option<usize>
    requires named { IsNamed named.nodes.now named.names.now named.adjacent.now named.sets.now }
    requires place { place < length named.nodes.now }
    requires one { joint ≢ Joint.Descendant }
    ensures { (m : ℕ) → (result ≡ Some m) ↔ Stands named.entry.nodes.now joint m place }
{
    match joint {
        Joint::Same => Some(place),
        Joint::Child => parent_of(named.nodes, place),
        Joint::Adjacent => adjacent_to(named.adjacent, place),
        Joint::Descendant => None,
    }
}

/// Adds a node, where there is one that fits a simple selector.
fn push_fitting(
    named: Named<'_>,
    found: &mut Vec<usize>,
    place: Option<usize>,
    simple: &Simple,
) -> Result<(), NoMemory>
    requires sets { AreSets named.names.now named.sets.now }
    requires place { (m : ℕ) → place ≡ Some m → m < length named.names.now }
    ensures { OnOk result (found.new.items ≡ with_fitting named.entry.names.now found.old.items place simple.now) }
{
    match place {
        Some(m) if fits_at(named.names, named.sets, m, simple) => found.push(m)?,
        _ => {}
    }
    Ok(())
}

fn place_at(places: &[usize], k: usize) -> usize
    requires { k < length places.now }
    ensures { result ≡ slice_index places.now k }
{
    places[k]
}

/// Of the nodes to which one of these stands as a joint says those that fit a simple selector.
fn each_before(
    alloc: Global,
    named: Named<'_>,
    places: &[usize],
    joint: Joint,
    simple: &Simple,
) -> Result<Vec<usize>, NoMemory>
    requires named { IsNamed named.nodes.now named.names.now named.adjacent.now named.sets.now }
    requires within { AreWithin (length named.nodes.now) places.now }
    requires rising { IsRising named.nodes.now places.now }
    requires one { joint ≢ Joint.Descendant }
    ensures { IfOk result (λ v. AreBefore named.entry.nodes.now named.entry.names.now places.now joint simple.now v.items) }
{
    let mut found = Vec::new(alloc);
    for k in 0..places.len() {
        let m = before(named, joint, place_at(places, k));
        push_fitting(named, &mut found, m, simple)?;
    }
    Ok(found)
}

/// Of the nodes that the node at a place stands in those that fit a simple selector, the nearest first.
fn above(
    alloc: Global,
    named: Named<'_>,
    place: usize,
    simple: &Simple,
) -> Result<Vec<usize>, NoMemory>
    requires named { IsNamed named.nodes.now named.names.now named.adjacent.now named.sets.now }
    requires place { place < length named.nodes.now }
    ensures { IfOk result (λ v. AreBefore named.entry.nodes.now named.entry.names.now (place ∷ []) Joint.Descendant simple.now v.items) }
{
    let mut found = Vec::new(alloc);
    let mut at = place;
    while at > 0 {
        at = parent_at(named.nodes, at);
        push_fitting(named, &mut found, Some(at), simple)?;
    }
    Ok(found)
}

/// Of the nodes to which one of these stands as a joint says those that fit a simple selector. What the later of these stand
/// in, the first stands in too.
fn all_before(
    alloc: Global,
    named: Named<'_>,
    places: &[usize],
    joint: Joint,
    simple: &Simple,
) -> Result<Vec<usize>, NoMemory>
    requires named { IsNamed named.nodes.now named.names.now named.adjacent.now named.sets.now }
    requires within { AreWithin (length named.nodes.now) places.now }
    requires rising { IsRising named.nodes.now places.now }
    requires some { 0 < length places.now }
    ensures { IfOk result (λ v. AreBefore named.entry.nodes.now named.entry.names.now places.now joint simple.now v.items) }
{
    match joint {
        Joint::Descendant => above(alloc, named, place_at(places, 0), simple),
        _ => each_before(alloc, named, places, joint, simple),
    }
}

pub(crate) fn step_at(steps: &[Step], k: usize) -> &Step
    requires { k < length steps.now }
    ensures { result.now ≡ slice_index_or steps.now k result.now }
{
    &steps[k]
}

/// Whether a selector, by its steps, matches the node at a place. It is read from its last step on: the nodes that the
/// steps before can come to are those that the steps behind lead on from.
pub fn is_matched(
    alloc: Global,
    named: Named<'_>,
    place: usize,
    steps: &[Step],
) -> Result<bool, NoMemory>
    requires named { IsNamed named.nodes.now named.names.now named.adjacent.now named.sets.now }
    requires place { place < length named.nodes.now }
    ensures { IfOk result (λ b. Says b (IsMatched named.entry.nodes.now named.entry.names.now steps.now place)) }
{
    let Some(last) = steps.len().checked_sub(1) else {
        return Ok(false);
    };
    let mut places = Vec::new(alloc);
    push_fitting(
        named,
        &mut places,
        Some(place),
        &step_at(steps, last).simple,
    )?;
    for done in 0..last {
        if places.is_empty() {
            return Ok(false);
        }
        let rest = last - done;
        let joint = step_at(steps, rest).joint;
        let simple = &step_at(steps, rest - 1).simple;
        let next = all_before(alloc, named, places.as_slice(), joint, simple)?;
        places = next;
    }
    Ok(!places.is_empty())
}
