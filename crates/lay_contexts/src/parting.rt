//! Where the boxes of a context go.

ghost use Rattle.std.specs.Prelude.{◌≡◌, ◌<◌, ◌≤◌, [], IfOk, IsTrue, length, slice_index, slice_index_or};
ghost use Rattle.lay_box_tree.specs.ContextBoxes.{AreContextBoxes};
ghost use Rattle.lay_contexts.specs.Partings.{ArePartings, IsParting, most_formatting_contexts, parting_at};
ghost use Rattle.lay_contexts.specs.WholePartings.{HasOneRoot};

use crate::Contexts;
use crate::homes::{homes, place_at};
use crate::numbers::{behind, numbers};
use crate::ranks::{Places, RankLists, ranks};
use crate::roots::is_root;
use lay_box_tree::BoxNode;
use lay_units::NoMemory;
use std::alloc::Global;
use std::marker::Model;

/// Of each box of a context its home, its place there, the places of those at home in it, and the number that a root there
/// has; and behind the last one the number of the next context.
#[derive(Drop)]
pub(crate) struct Parting {
    parts: Parts,
}

/// Most contexts have no root but their own box, and need no columns.
#[derive(Drop)]
enum Parts {
    /// The number of the own box, that of the next context, and how many boxes are inside the own one.
    Whole {
        first: usize,
        next: usize,
        inside: usize,
    },
    Several(PartColumns),
}

/// A column for each that is known.
#[derive(Drop)]
struct PartColumns {
    homes: Vec<usize>,
    ranks: RankLists,
    numbers: Vec<usize>,
}

impl Model for Parting {
    ghost use Rattle.lay_contexts.specs.Partings.{Parting as Plain};
    ghost use Rattle.lay_contexts.specs.WholePartings.{parting_of};

    ghost Value = { Plain };

    ghost view = { λ p. parting_of p.parts };
}

impl Parting {
    /// That of these boxes, where `first` is the number of the own box.
    pub(crate) fn new(alloc: Global, boxes: &[BoxNode], first: usize) -> Result<Parting, NoMemory>
        requires are { AreContextBoxes boxes.now }
        requires few { first ≤ most_formatting_contexts }
        ensures { IfOk result (IsParting boxes.now first) }
    {
        if is_whole(boxes) {
            return Parting::whole(boxes, first);
        }
        let homes = homes(alloc, boxes)?;
        let ranks = ranks(alloc, &homes)?;
        let numbers = numbers(alloc, boxes, first)?;
        Ok(Parting {
            parts: Parts::Several(PartColumns {
                homes,
                ranks,
                numbers,
            }),
        })
    }

    /// That of boxes of which only the own one is a root.
    fn whole(boxes: &[BoxNode], first: usize) -> Result<Parting, NoMemory>
        requires are { AreContextBoxes boxes.now }
        requires few { first ≤ most_formatting_contexts }
        requires whole { HasOneRoot boxes.now }
        ensures { IfOk result (IsParting boxes.now first) }
    {
        let next = behind(boxes, 0, first)?;
        Ok(Parting {
            parts: Parts::Whole {
                first,
                next,
                inside: boxes.len() - 1,
            },
        })
    }

    /// The home of the box at k.
    pub(crate) fn home(&self, k: usize) -> usize
        requires { k < length self.now.homes }
        ensures { result ≡ slice_index self.now.homes k }
    {
        match &self.parts {
            Parts::Whole { .. } => 0,
            Parts::Several(columns) => place_at(&columns.homes, k),
        }
    }

    /// The place of the box at k in the list of its home.
    pub(crate) fn rank(&self, k: usize) -> usize
        requires { k < length self.now.ranks }
        ensures { result ≡ slice_index self.now.ranks k }
    {
        match &self.parts {
            Parts::Whole { .. } => k,
            Parts::Several(columns) => place_at(&columns.ranks.ranks, k),
        }
    }

    /// The number of a root at k, or behind the last box that of the next context.
    pub(crate) fn number(&self, k: usize) -> usize
        requires { k < length self.now.numbers }
        ensures { result ≡ slice_index self.now.numbers k }
    {
        match &self.parts {
            Parts::Whole { first, next, .. } => { if k == 0 { *first } else { *next } }
            Parts::Several(columns) => place_at(&columns.numbers, k),
        }
    }

    /// How many boxes are at home in the one at r.
    pub(crate) fn count_at_home(&self, r: usize) -> usize
        requires { r < length self.now.at_home }
        ensures { result ≡ length (slice_index_or self.now.at_home r []) }
    {
        match &self.parts {
            Parts::Whole { inside, .. } => { if r == 0 { *inside } else { 0 } }
            Parts::Several(columns) => places_at(&columns.ranks.at_home, r).len(),
        }
    }

    /// The place of the box that stands at `a` among those at home in the one at r.
    pub(crate) fn at_home(&self, r: usize, a: usize) -> usize
        requires home { r < length self.now.at_home }
        requires place { a < length (slice_index_or self.now.at_home r []) }
        ensures { result ≡ slice_index (slice_index_or self.now.at_home r []) a }
    {
        match &self.parts {
            Parts::Whole { inside, .. } => {
                let _inside = *inside;
                a + 1
            }
            Parts::Several(columns) => place_at(places_at(&columns.ranks.at_home, r), a),
        }
    }
}

/// Whether only the own box is a root.
fn is_whole(boxes: &[BoxNode]) -> bool
    ensures { IsTrue result → HasOneRoot boxes.now }
{
    for k in 1..boxes.len() {
        if is_root(boxes, k) {
            return false;
        }
    }
    true
}

fn places_at(lists: &[Places], r: usize) -> &[usize]
    requires { r < length lists.now }
    ensures { result.now ≡ slice_index_or lists.now r [] }
{
    lists[r].as_slice()
}

/// Those of all contexts.
pub(crate) fn partings(alloc: Global, contexts: &Contexts) -> Result<Vec<Parting>, NoMemory>
    ensures { IfOk result (λ v. ArePartings contexts.now v.items) }
{
    let mut partings = Vec::with_capacity(alloc, contexts.len())?;
    let mut first = 0;
    for i in 0..contexts.len() {
        let boxes = contexts.at(i).boxes().as_slice();
        let parting = Parting::new(alloc, boxes, first)?;
        first = parting.number(boxes.len());
        partings.push(parting)?;
    }
    Ok(partings)
}

pub(crate) fn parting_at(partings: &[Parting], i: usize) -> &Parting
    requires { i < length partings.now }
    ensures { result.now ≡ parting_at partings.now i }
{
    &partings[i]
}
