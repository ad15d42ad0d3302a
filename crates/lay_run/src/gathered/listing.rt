//! Nodes as they are listed, with links in document order.

ghost use Rattle.std.specs.Prelude.{◌≡◌, ◌+◌, ◌<◌, ◌≤◌, ◌∷◌, ◌++◌, [], ℕ, None, length};
ghost use Rattle.std.specs.Prelude.{slice_index, vec_len, vec_capacity, IfOk, OnOk, OnErr};
ghost use Rattle.lay_units.specs.Limits.{most_depth, most_nodes, most_text};
ghost use Rattle.lay_run.specs.Gathered.Numbers.{number_of};
ghost use Rattle.lay_run.specs.Gathered.Listings.{depths_of, is_listed_element, insertion_limit_fault, insertion_fault};
ghost use Rattle.lay_run.specs.Gathered.Links.{IsLastOf, HasNodeLinks, with_behind, with_child};
ghost use Rattle.lay_run.specs.Gathered.Growth.{IsOfRoot, Grows, IsSame};

use crate::gathered::numbers::Numbers;
use lay_doc::{EditFault, NewNode, NodeId};
use lay_units::{LONGEST_TEXT, MOST_DEPTH, MOST_NODES, MOST_TEXT, NoMemory};
use std::alloc::Global;

/// A node, with its parent's id, its parent's number in the list (0 for the root) and its depth (1 for the root).
#[derive(Drop)]
pub struct Listed {
    pub parent: NodeId,
    pub up: usize,
    pub depth: u32,
    pub new: NewNode,
}

/// Listed nodes. A node's number is its place in the list.
#[derive(Drop)]
pub struct Listing {
    pub items: Vec<Listed>,
    /// The node behind each one in document order; of the last one any.
    pub nexts: Vec<usize>,
    /// The last child of each one; that of a node without children is itself.
    pub lasts: Vec<usize>,
    pub numbers: Numbers,
    /// The bytes of all texts together.
    pub text_bytes: usize,
}

impl Listing {
    /// The root alone.
    pub fn of_root(alloc: Global, root: NewNode) -> Result<Listing, NoMemory>
        ensures { IfOk result (λ l. IsOfRoot l root) }
    {
        let mut numbers = Numbers::new(alloc);
        numbers.add(root.id().0, 0)?;
        let text_bytes = root.content().len();
        let mut items = Vec::new(alloc);
        items.push(Listed {
            parent: NodeId(0),
            up: 0,
            depth: 1,
            new: root,
        })?;
        Ok(Listing {
            items,
            nexts: one_zero(alloc)?,
            lasts: one_zero(alloc)?,
            numbers,
            text_bytes,
        })
    }

    /// How many nodes there are.
    pub fn len(&self) -> usize
        ensures { result ≡ length self.now.items.items }
    {
        self.items.len()
    }

    /// The first fault of putting a node below the one with the number `up`, as its last child.
    pub fn fault_at(&self, up: usize, new: &NewNode) -> Option<EditFault>
        requires up { up < length self.now.items.items }
        requires bytes { self.now.text_bytes ≤ most_text }
        ensures { result ≡ insertion_fault self.now up new.now }
    {
        if !is_element_at(&self.items, up) {
            return Some(EditFault::NotElement);
        }
        if new.id().0 == 0 || self.numbers.find(new.id().0).is_some() {
            return Some(EditFault::IdTaken);
        }
        self.limit_at(up, new.content().len())
    }

    /// The first limit that a node with a text of so many bytes would pass.
    fn limit_at(&self, up: usize, bytes: usize) -> Option<EditFault>
        requires up { up < length self.now.items.items }
        requires bytes { self.now.text_bytes ≤ most_text }
        ensures { result ≡ insertion_limit_fault self.now up bytes }
    {
        if self.items.len() >= MOST_NODES {
            return Some(EditFault::TooManyNodes);
        }
        if self.items[up].depth >= MOST_DEPTH {
            return Some(EditFault::TooDeep);
        }
        if bytes > LONGEST_TEXT || self.text_bytes + bytes > MOST_TEXT {
            return Some(EditFault::TextTooLong);
        }
        None
    }
}

impl Listing {
    /// Puts a node below the one with the number `up`, as its last child. On an error all is as before.
    pub fn put(&mut self, parent: NodeId, up: usize, new: NewNode) -> Result<(), NoMemory>
        requires links { HasNodeLinks self.old }
        requires up { up < length self.old.items.items }
        requires few { length self.old.items.items < most_nodes }
        requires shallow { slice_index (depths_of self.old.items.items) up < most_depth }
        requires small { self.old.text_bytes + length new.text ≤ most_text }
        requires fresh { number_of self.old.numbers new.id.0 ≡ None }
        ensures ok { OnOk result (Grows self.old self.new parent up new) }
        ensures err { OnErr result (IsSame self.old self.new) }
    {
        let number = self.items.len();
        self.items.reserve(1)?;
        self.nexts.reserve(1)?;
        self.lasts.reserve(1)?;
        self.numbers.add(new.id().0, number)?;
        let before = last_of(&self.lasts, up);
        put_behind(&mut self.nexts, before);
        put_child(&mut self.lasts, up);
        self.text_bytes += new.content().len();
        let depth = self.items[up].depth + 1;
        push_within(
            &mut self.items,
            Listed {
                parent,
                up,
                depth,
                new,
            },
        );
        Ok(())
    }
}

/// Whether the node with a number is an element.
fn is_element_at(items: &[Listed], number: usize) -> bool
    requires { number < length items.now }
    ensures { result ≡ is_listed_element items.now number }
{
    items[number].new.kind().is_element()
}

/// The last node of the subtree of the one with the number `of`.
fn last_of(lasts: &[usize], of: usize) -> usize
    requires of { of < length lasts.now }
    requires rising { (i : ℕ) → i < length lasts.now → (i ≤ slice_index lasts.now i) × (slice_index lasts.now i < length lasts.now) }
    ensures last { IsLastOf lasts.now of result }
    ensures within { result < length lasts.now }
{
    let mut at = of;
    while lasts[at] != at {
        at = lasts[at];
    }
    at
}

/// Links one more node behind the one with the number `before`.
fn put_behind(nexts: &mut Vec<usize>, before: usize)
    requires before { before < length nexts.old.items }
    requires room { vec_len nexts.old < vec_capacity nexts.old }
    ensures { nexts.new.items ≡ with_behind nexts.old.items before }
{
    let number = nexts.len();
    let next = nexts[before];
    push_within(nexts, next);
    nexts[before] = number;
}

/// Makes one more node the last child of the one with the number `up`.
fn put_child(lasts: &mut Vec<usize>, up: usize)
    requires up { up < length lasts.old.items }
    requires room { vec_len lasts.old < vec_capacity lasts.old }
    ensures { lasts.new.items ≡ with_child lasts.old.items up }
{
    let number = lasts.len();
    push_within(lasts, number);
    lasts[up] = number;
}

/// Adds an item to a list that has room for one more.
fn push_within<T: Drop>(items: &mut Vec<T>, item: T)
    requires room { vec_len items.old < vec_capacity items.old }
    ensures { items.new.items ≡ items.old.items ++ item ∷ [] }
{
    if items.push(item).is_err() {
        unreachable!()
    }
}

/// The list of the number 0 alone.
fn one_zero(alloc: Global) -> Result<Vec<usize>, NoMemory>
    ensures { IfOk result (λ v. v.items ≡ 0 ∷ []) }
{
    let mut zeros = Vec::new(alloc);
    zeros.push(0)?;
    Ok(zeros)
}
