//! The places of a document's nodes, by their ids.

ghost use Rattle.std.specs.Prelude.{◌≡◌, ◌==◌, ◌<◌, ◌≤◌, ◌+◌, ◌-◌, ◌++◌, ◌∷◌, ℕ, [], None, Some, length};
ghost use Rattle.std.specs.Prelude.{map, slice_index, vec_capacity, if◌then◌else◌, IfOk, OnOk, OnErr};
ghost use Rattle.std.specs.BTreeMap.{get};
ghost use Rattle.std.specs.Ordering.{nat_cmp};
ghost use Rattle.lay_units.specs.Limits.{most_nodes};
ghost use Rattle.lay_doc.specs.Tree.{shifted};
ghost use Rattle.lay_doc.specs.Index.{is_up_to, number_in, place_in, NumbersHavePlaces, IsIndexOf};
ghost use Rattle.lay_doc.specs.Document.{ids_of};
ghost use Rattle.std.specs.List.{remove_range};

use crate::columns::id_at;
use crate::node::Node;
use lay_units::NoMemory;
use std::alloc::Global;
use std::collections::BTreeMap;

/// An id has the number of its insertion, which never changes, and each number the present place of its
/// node. So a node that is put in the middle moves the places in one list, and touches the map once.
///
/// Most documents number their nodes in order: the first ids are 1, 2, 3 and so on, and stand in no map.
#[derive(Drop)]
pub struct IdIndex {
    /// The ids from 1 up to this one came first, in this order.
    in_order: usize,
    /// The numbers of the other ids.
    numbers: BTreeMap<u32, usize>,
    places: Vec<usize>,
}

impl IdIndex {
    /// The index of no node. Nothing is allocated.
    pub fn new(alloc: Global) -> IdIndex
        ensures in_order { result.in_order ≡ 0 }
        ensures numbers { result.numbers.entries ≡ [] }
        ensures places { result.places.items ≡ [] }
    {
        IdIndex {
            in_order: 0,
            numbers: BTreeMap::new(alloc),
            places: Vec::new(alloc),
        }
    }

    /// The index of these nodes but for those from the place `from` up to `to`.
    pub fn without(
        alloc: Global,
        nodes: &[Node],
        from: usize,
        to: usize,
    ) -> Result<IdIndex, NoMemory>
        requires few { length nodes.now ≤ most_nodes }
        requires from { from ≤ to }
        requires to { to ≤ length nodes.now }
        requires apart { (j k : ℕ) → j < k → k < length nodes.now
            → slice_index (ids_of nodes.now) j ≡ slice_index (ids_of nodes.now) k → ⊥ }
        ensures { IfOk result (λ index. IsIndexOf index (remove_range (ids_of nodes.now) from to)) }
    {
        let mut index = IdIndex::new(alloc);
        for k in 0..nodes.len() - (to - from) {
            index.add(kept_id(nodes, from, to, k), k)?;
        }
        Ok(index)
    }

    /// The place of the node with this id.
    pub fn find(&self, id: u32) -> Option<usize>
        requires { NumbersHavePlaces self.now }
        ensures { result ≡ place_in self.now id }
    {
        let number = self.number(id)?;
        Some(self.places[number])
    }

    /// The number of this id.
    fn number(&self, id: u32) -> Option<usize>
        ensures { result ≡ number_in self.now id }
    {
        if is_up_to(id, self.in_order) {
            return Some(id as usize - 1);
        }
        let number = self.numbers.get(&id)?;
        Some(*number)
    }

    /// Notes that a node with this id was put before the place `at`. On an error all is as before.
    pub fn add(&mut self, id: u32, at: usize) -> Result<(), NoMemory>
        requires fresh { number_in self.old id ≡ None }
        requires few { length self.old.places.items ≤ most_nodes }
        requires within { (n : ℕ) → n < length self.old.places.items → slice_index self.old.places.items n < length self.old.places.items }
        ensures numbers { OnOk result
            ((x : ℕ) → number_in self.new x ≡ (if x == id then Some (length self.old.places.items) else number_in self.old x)) }
        ensures places { OnOk result (self.new.places.items ≡ map (shifted at) self.old.places.items ++ at ∷ []) }
        ensures same_order { OnErr result (self.new.in_order ≡ self.old.in_order) }
        ensures same_numbers { OnErr result (self.new.numbers.entries ≡ self.old.numbers.entries) }
        ensures same_places { OnErr result (self.new.places.items ≡ self.old.places.items) }
    {
        self.places.reserve(1)?;
        self.add_number(id)?;
        shift(&mut self.places, at);
        match self.places.push(at) {
            Ok(()) => Ok(()),
            Err(_) => unreachable!(),
        }
    }

    /// Gives an id that has none the number behind all that have a place.
    fn add_number(&mut self, id: u32) -> Result<(), NoMemory>
        requires fresh { number_in self.old id ≡ None }
        requires few { length self.old.places.items ≤ most_nodes }
        ensures numbers { OnOk result
            ((x : ℕ) → number_in self.new x ≡ (if x == id then Some (length self.old.places.items) else number_in self.old x)) }
        ensures same_places { self.new.places.items ≡ self.old.places.items }
        ensures same_capacity { vec_capacity self.new.places ≡ vec_capacity self.old.places }
        ensures same_order { OnErr result (self.new.in_order ≡ self.old.in_order) }
        ensures same_numbers { OnErr result (self.new.numbers.entries ≡ self.old.numbers.entries) }
    {
        let number = self.places.len();
        if number == self.in_order && id as usize == number + 1 {
            self.in_order = number + 1;
            return Ok(());
        }
        add_number(&mut self.numbers, id, number)
    }
}

/// Whether an id is one of 1, 2, 3 and so on up to `last`.
pub fn is_up_to(id: u32, last: usize) -> bool
    ensures { result ≡ is_up_to id last }
{
    0 < id && id as usize <= last
}

/// The id of the node at a place among those but for the ones from the place `from` up to `to`.
fn kept_id(nodes: &[Node], from: usize, to: usize, k: usize) -> u32
    requires from { from ≤ to }
    requires to { to ≤ length nodes.now }
    requires k { k + (to - from) < length nodes.now }
    ensures { result ≡ slice_index (remove_range (ids_of nodes.now) from to) k }
{
    if k < from {
        id_at(nodes, k)
    } else {
        id_at(nodes, k + (to - from))
    }
}

/// Gives an id that has none a number.
pub fn add_number(
    numbers: &mut BTreeMap<u32, usize>,
    id: u32,
    number: usize,
) -> Result<(), NoMemory>
    ensures ok { OnOk result ((x : ℕ) → get nat_cmp numbers.new x ≡ (if x == id then Some number else get nat_cmp numbers.old x)) }
    ensures err { OnErr result (numbers.new.entries ≡ numbers.old.entries) }
{
    match numbers.insert(id, number) {
        Ok(_) => Ok(()),
        Err(_) => Err(NoMemory),
    }
}

/// Moves the places for a node that is put before the place `at`: none, where that is behind them all.
fn shift(places: &mut Vec<usize>, at: usize)
    requires few { length places.old.items ≤ most_nodes }
    requires within { (n : ℕ) → n < length places.old.items → slice_index places.old.items n < length places.old.items }
    ensures items { places.new.items ≡ map (shifted at) places.old.items }
    ensures capacity { vec_capacity places.new ≡ vec_capacity places.old }
{
    if at >= places.len() {
        return;
    }
    for place in places.iter_mut() {
        *place = place_after(*place, at);
    }
}

/// A place, after one node was put before the place `at`.
pub fn place_after(place: usize, at: usize) -> usize
    requires { place < most_nodes }
    ensures { result ≡ shifted at place }
{
    if place < at { place } else { place + 1 }
}
