//! Which nodes a selector matches: it is read once for all nodes, from its first step on, 64 steps at a time.

ghost use Rattle.std.specs.Prelude.{◌≡◌, ◌≢◌, ◌+◌, ◌<◌, true, false, Some, IfOk, length, slice_index, slice_index_or};
ghost use Rattle.std.specs.Option.{option_map_or};
ghost use Rattle.std.specs.List.{list_any, slice_get};
ghost use Rattle.lay_doc.specs.Document.{parents_of};
ghost use Rattle.lay_doc.specs.Tree.{IsTree};
ghost use Rattle.lay_cascade.specs.NodeNames.{fits_at};
ghost use Rattle.lay_cascade.specs.Matching.{IsMatched, Says};
ghost use Rattle.lay_cascade.specs.Rising.{IsNamed};
ghost use Rattle.lay_sheet.specs.declared.selector.Step.{Step as StepValue};
ghost use Rattle.lay_cascade.specs.Columns.{IsColumn, ComeTo, IsReached, Leads};
ghost use Rattle.lay_cascade.specs.Windows.{IsWindow};
ghost use Rattle.lay_cascade.specs.Reading.{IsRead, AreRead, above_word, joined};

use crate::fitting::fitting_at;
use crate::matching::{Named, before, step_at};
use crate::names::fits_at;
use crate::windows::{JointMasks, Window, window_at};
use crate::words::{front_word, is_in, shifted, spread};
use lay_doc::{Node, parent_at};
use lay_sheet::{Joint, Simple, Step};
use lay_units::NoMemory;
use std::alloc::Global;

fn is_set(column: &[bool], k: usize) -> bool
    ensures { result ≡ slice_index_or column.now k false }
{
    match column.get(k) {
        Some(told) => *told,
        None => false,
    }
}

/// Whether a column names any node.
fn is_any_set(column: &[bool]) -> bool
    ensures { result ≡ list_any (λ told. told) column.now }
{
    for told in column {
        if *told {
            return true;
        }
    }
    false
}

/// Whether the node at a place stands in one that a column names. Of the nodes before it `inside` says the same.
fn is_inside(nodes: &[Node], ends: &[bool], inside: &[bool], k: usize) -> bool
    requires tree { IsTree (parents_of nodes.now) }
    requires place { k < length nodes.now }
    requires so_far { IsColumn k (IsReached nodes.now ends.now Joint.Descendant) inside.now }
    ensures { Says result (IsReached nodes.now ends.now Joint.Descendant k) }
{
    if k == 0 {
        return false;
    }
    let parent = parent_at(nodes, k);
    if is_set(ends, parent) {
        return true;
    }
    is_set(inside, parent)
}

/// For each node whether it stands in one that a column names.
fn inside_of(alloc: Global, nodes: &[Node], ends: &[bool]) -> Result<Vec<bool>, NoMemory>
    requires { IsTree (parents_of nodes.now) }
    ensures { IfOk result (λ v. IsColumn (length nodes.now) (IsReached nodes.now ends.now Joint.Descendant) v.items) }
{
    let mut inside = Vec::new(alloc);
    for k in 0..nodes.len() {
        let told = is_inside(nodes, ends, inside.as_slice(), k);
        inside.push(told)?;
    }
    Ok(inside)
}

/// What is asked of the nodes that a column names before they are joined to others: for descendants, which nodes stand in one.
fn inside_for(
    alloc: Global,
    nodes: &[Node],
    ends: &[bool],
    joint: Joint,
) -> Result<Vec<bool>, NoMemory>
    requires { IsTree (parents_of nodes.now) }
    ensures { IfOk result
        (λ v. joint ≡ Joint.Descendant → IsColumn (length nodes.now) (IsReached nodes.now ends.now Joint.Descendant) v.items) }
{
    match joint {
        Joint::Descendant => inside_of(alloc, nodes, ends),
        _ => Ok(Vec::new(alloc)),
    }
}

/// Whether the node at a place stands to one that a column names as a joint says, which asks for one node alone.
fn is_behind(named: Named<'_>, ends: &[bool], joint: Joint, k: usize) -> bool
    requires named { IsNamed named.nodes.now named.names.now named.adjacent.now named.sets.now }
    requires place { k < length named.nodes.now }
    requires one { joint ≢ Joint.Descendant }
    ensures { Says result (IsReached named.entry.nodes.now ends.now joint k) }
{
    match before(named, joint, k) {
        Some(m) => is_set(ends, m),
        None => false,
    }
}

/// Whether the node at a place stands to one that a column names as a joint says.
fn is_reached(named: Named<'_>, ends: &[bool], inside: &[bool], joint: Joint, k: usize) -> bool
    requires named { IsNamed named.nodes.now named.names.now named.adjacent.now named.sets.now }
    requires place { k < length named.nodes.now }
    requires inside { joint ≡ Joint.Descendant →
        IsColumn (length named.nodes.now) (IsReached named.nodes.now ends.now Joint.Descendant) inside.now }
    ensures { Says result (IsReached named.entry.nodes.now ends.now joint k) }
{
    match joint {
        Joint::Descendant => is_set(inside, k),
        _ => is_behind(named, ends, joint, k),
    }
}

/// What is told of the nodes before one: which steps of a window come to each, and which to one that it stands in.
#[derive(Clone, Copy)]
struct WordsBefore<'a> {
    here: &'a [u64],
    above: &'a [u64],
}

/// What is told of one node.
#[derive(Clone, Copy)]
struct NodeWords {
    here: u64,
    above: u64,
}

fn word_at(words: &[u64], k: usize) -> u64
    ensures { result ≡ slice_index words.now k }
{
    match words.get(k) {
        Some(word) => *word,
        None => 0,
    }
}

/// The word of a node, where there is one.
fn word_of(words: &[u64], place: Option<usize>) -> u64
    ensures { result ≡ option_map_or (slice_index words.now) place 0 }
{
    match place {
        Some(m) => word_at(words, m),
        None => 0,
    }
}

/// Which steps of a window come to a node that the node at a place stands in.
fn above_word(nodes: &[Node], told: WordsBefore<'_>, k: usize) -> u64
    requires tree { IsTree (parents_of nodes.now) }
    requires place { k < length nodes.now }
    ensures { result ≡ above_word nodes.now told.entry.here.now told.entry.above.now k }
{
    if k == 0 {
        return 0;
    }
    let parent = parent_at(nodes, k);
    word_at(told.here, parent) | word_at(told.above, parent)
}

/// Which steps are joined to one that comes to where the joint asks for it. `front` says so of the first.
fn joined(joints: JointMasks, front: bool, child: u64, adjacent: u64, above: u64) -> u64
    ensures { result ≡ joined joints front child adjacent above }
{
    front_word(front)
        | (joints.child & shifted(child))
        | (joints.adjacent & shifted(adjacent))
        | (joints.descendant & shifted(above))
}

/// Which steps of a window come to the node at a place, and which to one that it stands in. `front` says whether its first
/// step is joined to where the steps before the window come to.
fn node_words(
    named: Named<'_>,
    window: &Window<'_>,
    told: WordsBefore<'_>,
    front: bool,
    k: usize,
) -> NodeWords
    requires named { IsNamed named.nodes.now named.names.now named.adjacent.now named.sets.now }
    requires window { IsWindow window.now.steps.now window.now.from window.now }
    requires behind { 0 < window.now.from }
    requires place { k < length named.nodes.now }
    requires told { AreRead named.nodes.now named.names.now window.now k told.here.now told.above.now }
    requires front { (step : StepValue) → slice_get window.now.steps.now window.now.from ≡ Some step →
        Says front (Leads named.nodes.now named.names.now window.now.steps.now window.now.from step.joint k) }
    ensures { IsRead named.entry.nodes.now named.entry.names.now window.now k result.here result.above }
{
    let fits = fitting_at(window, named.names, named.sets, k);
    let parent = before(named, Joint::Child, k);
    let sibling = before(named, Joint::Adjacent, k);
    let child = word_of(told.here, parent);
    let adjacent = word_of(told.here, sibling);
    let above = above_word(named.nodes, told, k);
    let reached = joined(window.joints, front, child, adjacent, above);
    let here = spread(fits & reached, fits & window.joints.same);
    NodeWords { here, above }
}

/// For each node whether the steps of a window come to it, from a node that a column names.
fn next_ends(
    alloc: Global,
    named: Named<'_>,
    ends: &[bool],
    window: &Window<'_>,
) -> Result<Vec<bool>, NoMemory>
    requires named { IsNamed named.nodes.now named.names.now named.adjacent.now named.sets.now }
    requires window { IsWindow window.now.steps.now window.now.from window.now }
    requires behind { 0 < window.now.from }
    requires come { IsColumn (length named.nodes.now)
        (ComeTo named.nodes.now named.names.now window.now.steps.now window.now.from) ends.now }
    ensures { IfOk result (λ v. IsColumn (length named.entry.nodes.now)
        (ComeTo named.entry.nodes.now named.entry.names.now window.now.steps.now (window.now.from + window.now.count)) v.items) }
{
    let joint = window.first_joint();
    let inside = inside_for(alloc, named.nodes, ends, joint)?;
    let mut here = Vec::new(alloc);
    let mut above = Vec::new(alloc);
    let mut next = Vec::new(alloc);
    for k in 0..named.nodes.len() {
        let front = is_reached(named, ends, inside.as_slice(), joint, k);
        let told = WordsBefore {
            here: here.as_slice(),
            above: above.as_slice(),
        };
        let words = node_words(named, window, told, front, k);
        here.push(words.here)?;
        above.push(words.above)?;
        next.push(is_in(words.here, window.count - 1))?;
    }
    Ok(next)
}

/// For each node whether it fits a simple selector.
fn all_fitting(alloc: Global, named: Named<'_>, simple: &Simple) -> Result<Vec<bool>, NoMemory>
    requires { IsNamed named.nodes.now named.names.now named.adjacent.now named.sets.now }
    ensures { IfOk result (λ v. IsColumn (length named.entry.nodes.now) (λ k. fits_at named.entry.names.now k simple.now ≡ true) v.items) }
{
    let mut fitting = Vec::new(alloc);
    for k in 0..named.nodes.len() {
        fitting.push(fits_at(named.names, named.sets, k, simple))?;
    }
    Ok(fitting)
}

/// For each node whether a selector, by its steps, matches it. They are read 64 at a time, until the steps come to no node.
pub fn matched_nodes(alloc: Global, named: Named<'_>, steps: &[Step]) -> Result<Vec<bool>, NoMemory>
    requires named { IsNamed named.nodes.now named.names.now named.adjacent.now named.sets.now }
    requires some { 0 < length steps.now }
    ensures { IfOk result
        (λ v. IsColumn (length named.entry.nodes.now) (IsMatched named.entry.nodes.now named.entry.names.now steps.now) v.items) }
{
    let mut ends = all_fitting(alloc, named, &step_at(steps, 0).simple)?;
    let mut done = 1;
    while done < steps.len() {
        if !is_any_set(ends.as_slice()) {
            return Ok(ends);
        }
        let window = window_at(alloc, steps, done)?;
        let next = next_ends(alloc, named, ends.as_slice(), &window)?;
        ends = next;
        done += window.count;
    }
    Ok(ends)
}
