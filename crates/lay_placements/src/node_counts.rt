//! How many pieces each node has, as far as they are counted.

ghost use Rattle.std.specs.Prelude.{ℕ, ◌≡◌, ◌≢◌, ◌+◌, ◌<◌, ◌≤◌, IfSome, None, OnErr, OnOk, length};
ghost use Rattle.lay_placements.specs.PieceCounts.{counted_apart, counts_of, no_counts};

use lay_units::NoMemory;
use std::alloc::Global;
use std::collections::BTreeMap;

/// How many pieces a node has of each kind.
#[derive(Clone, Copy)]
pub struct Counts {
    pub boxes: u32,
    pub lines: u32,
    pub texts: u32,
}

const NO_COUNTS: Counts = Counts {
    boxes: 0,
    lines: 0,
    texts: 0,
};

/// How many pieces nodes have. Those of the ids from `first` on have places of their own in a table, which is made for `span`
/// ids with the first count; those of others stand in a map.
#[derive(Drop)]
pub(crate) struct NodeCounts {
    alloc: Global,
    first: u32,
    span: usize,
    table: Vec<Counts>,
    others: BTreeMap<u32, Counts>,
}

impl NodeCounts {
    /// Nothing is counted.
    pub(crate) fn new(alloc: Global, first: u32, span: usize) -> NodeCounts
        ensures { (id : ℕ) → counts_of result id ≡ no_counts }
    {
        NodeCounts {
            alloc,
            first,
            span,
            table: Vec::new(alloc),
            others: BTreeMap::new(alloc),
        }
    }

    /// How many pieces the node with this id has.
    pub(crate) fn at(&self, id: u32) -> Counts
        ensures { result ≡ counts_of self.now id }
    {
        match self.place(id) {
            Some(place) => self.table[place],
            None => counted_apart(&self.others, id),
        }
    }

    /// Notes these for the node with this id.
    pub(crate) fn put(&mut self, id: u32, counts: Counts) -> Result<(), NoMemory>
        ensures here { OnOk result (counts_of self.new id ≡ counts) }
        ensures others { OnOk result ((other : ℕ) → other ≢ id → counts_of self.new other ≡ counts_of self.old other) }
        ensures err { OnErr result ((other : ℕ) → counts_of self.new other ≡ counts_of self.old other) }
    {
        self.make_room()?;
        match self.place(id) {
            Some(place) => {
                self.table[place] = counts;
                Ok(())
            }
            None => {
                put_apart(&mut self.others, id, counts)?;
                Ok(())
            }
        }
    }

    /// Makes the table, if nothing is counted yet.
    fn make_room(&mut self) -> Result<(), NoMemory>
        ensures { (id : ℕ) → counts_of self.new id ≡ counts_of self.old id }
    {
        if self.table.is_empty() && self.others.is_empty() {
            self.table = vec![in self.alloc; NO_COUNTS; self.span]?;
        }
        Ok(())
    }

    /// The place of an id in the table.
    fn place(&self, id: u32) -> Option<usize>
        ensures there { IfSome result (λ place. (self.now.first + place ≡ id) × (place < length self.now.table.items)) }
        ensures outside { result ≡ None → (place : ℕ) → self.now.first + place ≡ id → length self.now.table.items ≤ place }
    {
        if id < self.first {
            return None;
        }
        let place = (id - self.first) as usize;
        if place < self.table.len() {
            return Some(place);
        }
        None
    }
}

/// What a map says of the node with this id.
fn counted_apart(counts: &BTreeMap<u32, Counts>, id: u32) -> Counts
    ensures { result ≡ counted_apart counts.now id }
{
    match counts.get(&id) {
        Some(counts) => *counts,
        None => NO_COUNTS,
    }
}

/// Notes these in a map for the node with this id.
fn put_apart(map: &mut BTreeMap<u32, Counts>, id: u32, counts: Counts) -> Result<(), NoMemory>
    ensures here { OnOk result (counted_apart map.new id ≡ counts) }
    ensures others { OnOk result ((other : ℕ) → other ≢ id → counted_apart map.new other ≡ counted_apart map.old other) }
    ensures err { OnErr result ((other : ℕ) → counted_apart map.new other ≡ counted_apart map.old other) }
{
    map.insert(id, counts)?;
    Ok(())
}
