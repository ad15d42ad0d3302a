//! The cells.

ghost use Rattle.std.specs.Prelude.{ℕ, ◌≡◌, ◌↔◌, ◌<◌, ◌≤◌, ◌-◌, ◌^◌, [], IfNone, IfSome, IsOk};
ghost use Rattle.std.specs.Prelude.{IsTrue, OnErr, OnOk, false, length, map, option_map};
ghost use Rattle.std.specs.Arc.{arc_value};
ghost use Rattle.lay_cells.specs.Looks.{IsAt, IsGone, Looks};
ghost use Rattle.lay_cells.specs.Marks.{Marks};
ghost use Rattle.lay_cells.specs.Places.{AreCleanFrom, AtPlace, HasNoNeedAt, IsClaimed, IsFirstDirtyFrom, IsNeedAt};
ghost use Rattle.lay_cells.specs.Reads.{AllClean, IsFirstDirtyKey, IsLaid, IsPaid, KeepsNone, KeepsValue};
ghost use Rattle.lay_cells.specs.Reshapes.{Reshapes};
ghost use Rattle.lay_cells.specs.Reuses.{AreNeedsAt, CanReuse, ReusesIn};
ghost use Rattle.lay_cells.specs.Rows.{Row, entry_of};
ghost use Rattle.lay_cells.specs.Sound.{IsSound};
ghost use Rattle.lay_cells.specs.Steps.{ClaimsIn, FinishesIn, GivesBackIn, IsStale, KnowsInput};

use crate::answers::{Claimed, Finished, Look, Released};
use crate::blanks::blank_cells;
use crate::cell::CellOf;
use crate::change::{claim_at, drawn, finish_at, finish_known_at, give_back_at};
use crate::done::Done;
use crate::entries::same_entries;
use crate::fresh::key_set;
use crate::index::{find, index_of};
use crate::marking::{mark_dependents, mark_listed};
use crate::needs::{first_dirty_key, next_dirty};
use crate::places::{claimed_in, dirty_from, kept_in, key_in, need_in, needs_in};
use crate::reading::{laid_in, look_at, look_in, value_in};
use crate::reshaping::settle_all;
use crate::reusing::{can_reuse_in, reuse_in};
use crate::shape::Shape;
use crate::work::Work;
use lay_units::NoMemory;
use std::alloc::Global;
use std::collections::BTreeMap;
use std::marker::Model;
use std::sync::Arc;

/// Cells in the order of their shape, with what is kept of each. Contracts see them as a list of rows
/// and the count of the numbers that were drawn.
#[derive(Drop)]
pub struct Cells<W: Work> {
    cells: Vec<CellOf<W>>,
    index: BTreeMap<W::Key, usize>,
    /// The place of the first dirty cell, or the number of cells.
    lowest: usize,
    draws: u64,
}

impl<W: Work> Model for Cells<W> {
    ghost use Rattle.std.specs.Prelude.{map};
    ghost use Rattle.lay_cells.specs.Rows.{State, row_of};
    ghost use Rattle.lay_cells.specs.Kept.{IsKept};

    ghost Value = { State W.Key W.Input W.Value };

    ghost view = { λ c. record { rows = map row_of c.cells.items; draws = c.draws } };

    ghost invariant = { λ c. IsKept W.relates W.Key.cmp c.cells.items c.index c.lowest c.draws };
}

impl<W: Work> Cells<W> {
    /// No cells, and no number is drawn.
    pub fn new(alloc: Global) -> Cells<W>
        ensures { result ≡ record { rows = []; draws = 0 } }
    {
        Cells {
            cells: Vec::new(alloc),
            index: BTreeMap::new(alloc),
            lowest: 0,
            draws: 0,
        }
    }

    /// Afterwards the cells are those of the shape, in its order. A cell that was there, and whose key is
    /// not in `fresh`, keeps its pair, its claim and its counts; it is marked where its dependencies are
    /// others than before, and where one of them is dirty. Each other cell is made anew, with the next
    /// number: it has nothing, and is dirty. The shape that the cells have changes nothing, where no key is
    /// fresh, and takes no memory. On an error all is as before.
    pub fn reshape(&mut self, shape: Shape<W::Key>, fresh: &[W::Key]) -> Result<(), NoMemory>
        requires draws { self.old.draws ≤ 2 ^ 64 - 2 ^ 20 }
        ensures ok { OnOk result (Reshapes self.old shape fresh.now self.new) }
        ensures present { map entry_of self.old.rows ≡ shape → fresh.now ≡ [] → IsOk result × (self.new ≡ self.old) }
        ensures err { OnErr result (self.new ≡ self.old) }
    {
        if self.is_present(&shape, fresh) {
            return Ok(());
        }
        let alloc = *self.cells.allocator();
        let fresh = key_set::<W>(alloc, fresh)?;
        let index = index_of::<W>(alloc, shape.keys())?;
        let mut cells = blank_cells::<W>(alloc, &index, shape.into_plans())?;
        self.draws = settle_all::<W>(&mut cells, &mut self.cells, &self.index, &fresh, self.draws);
        self.lowest = next_dirty::<W>(cells.as_slice(), 0);
        self.cells = cells;
        self.index = index;
        Ok(())
    }

    /// Whether a shape is the one that the cells have, and no key is fresh.
    fn is_present(&self, shape: &Shape<W::Key>, fresh: &[W::Key]) -> bool
        ensures { IsTrue result ↔ ((map entry_of self.now.rows ≡ shape.now) × (fresh.now ≡ [])) }
    {
        if !fresh.is_empty() {
            return false;
        }
        self.entries_equal(shape)
    }

    /// Whether a shape is the one that the cells have.
    pub fn entries_equal(&self, shape: &Shape<W::Key>) -> bool
        ensures { IsTrue result ↔ (map entry_of self.now.rows ≡ shape.now) }
    {
        same_entries::<W>(self.cells.as_slice(), shape.plans())
    }

    /// Marks the cells of these keys that are there, and each cell that depends on one of them in any
    /// number of steps: it is dirty, and its open claim is stale. Each other cell stays as it was.
    pub fn mark(&mut self, keys: &[W::Key])
        ensures rows { Marks self.old.rows keys.now self.new.rows }
        ensures draws { self.new.draws ≡ self.old.draws }
    {
        mark_listed::<W>(&mut self.cells, &self.index, keys);
        mark_dependents::<W>(&mut self.cells);
        self.lowest = next_dirty::<W>(self.cells.as_slice(), 0);
    }

    /// What a look at the key shows.
    pub fn look(&self, key: W::Key) -> Look<W::Key>
        ensures { Looks self.now.rows key result }
    {
        look_in::<W>(self.cells.as_slice(), &self.index, key)
    }

    /// A claim of the key for an input. Taken where the open claim has this input, which is then no longer
    /// stale. Else Reused where the kept pair has it: the cell is clean, and no claim is open. Else
    /// Granted: the claim of the new number is the open one. Reused and Granted draw the next number.
    pub fn claim(&mut self, key: W::Key, input: Arc<W::Input>) -> Claimed
        requires draws { self.old.draws ≤ 2 ^ 64 - 2 ^ 20 }
        requires ready { Looks self.old.rows key Look.Ready }
        ensures { ClaimsIn self.old key (arc_value input) result self.new }
    {
        let Some(place) = find::<W>(self.cells.as_slice(), &self.index, key) else {
            unreachable!()
        };
        self.claim_at_place(place, input)
    }

    /// Finished work. Gone where no cell has its key, or the cell was made after its number. Else
    /// Superseded where the open claim has another number or input. Else the pair is kept and the claim
    /// closed: Stored where the claim is stale, and the cell stays dirty; Cleaned where it isn't.
    pub fn finish(&mut self, done: Done<W>) -> Finished
        ensures { FinishesIn self.old done result self.new }
    {
        let Some(place) = find::<W>(self.cells.as_slice(), &self.index, done.key()) else {
            return Finished::Gone;
        };
        let answer = finish_at::<W>(&mut self.cells, place, done);
        self.lowest = next_dirty::<W>(self.cells.as_slice(), self.lowest);
        answer
    }

    /// Finished work whose input is known to be that of the open claim of its number, as `finish`. Nothing is compared.
    pub fn finish_known(&mut self, done: Done<W>) -> Finished
        requires known { (i : ℕ) (r : Row W.Key W.Input W.Value) → IsAt self.old.rows done.key i r → KnowsInput r done }
        ensures { FinishesIn self.old done result self.new }
    {
        let Some(place) = find::<W>(self.cells.as_slice(), &self.index, done.key()) else {
            return Finished::Gone;
        };
        let answer = finish_known_at::<W>(&mut self.cells, place, done);
        self.lowest = next_dirty::<W>(self.cells.as_slice(), self.lowest);
        answer
    }

    /// A claim that comes back without a value. Gone where no cell has the key, or the cell was made
    /// after the number. Else Superseded where the open claim has another number. Else the claim is
    /// closed, and counted as one that came back.
    pub fn give_back(&mut self, key: W::Key, number: u64) -> Released
        ensures { GivesBackIn self.old key number result self.new }
    {
        match find::<W>(self.cells.as_slice(), &self.index, key) {
            Some(place) => give_back_at::<W>(&mut self.cells, place, number),
            None => Released::Gone,
        }
    }

    /// The value of the kept pair, which meets its input. None where no cell has the key, or where the
    /// cell has no kept pair.
    pub fn value(&self, key: W::Key) -> Option<&Arc<W::Value>>
        ensures some { IfSome result (λ v. KeepsValue W.relates self.now.rows key (arc_value v.now)) }
        ensures none { IfNone result (KeepsNone self.now.rows key) }
    {
        value_in::<W>(self.cells.as_slice(), &self.index, key)
    }

    /// How many claims of the cell were granted: at most one more than the turns of its input and the
    /// claims that were given back. None where no cell has the key.
    pub fn laid(&self, key: W::Key) -> Option<u64>
        ensures some { IfSome result (IsLaid self.now.rows key) }
        ensures paid { IfSome result (IsPaid self.now.rows key) }
        ensures none { IfNone result (IsGone self.now.rows key) }
    {
        laid_in::<W>(self.cells.as_slice(), &self.index, key)
    }

    /// The key of the first dirty cell. None where every cell is clean.
    pub fn first_dirty(&self) -> Option<W::Key>
        ensures some { IfSome result (IsFirstDirtyKey self.now.rows) }
        ensures none { IfNone result (AllClean self.now.rows) }
    {
        first_dirty_key::<W>(self.cells.as_slice(), self.lowest)
    }

    /// How many cells there are.
    pub fn len(&self) -> usize
        ensures { result ≡ length self.now.rows }
    {
        self.cells.len()
    }

    /// The place of the cell of a key, at which it stands until the next shape.
    pub fn place_of(&self, key: W::Key) -> Option<usize>
        ensures some { IfSome result (λ i. (r : Row W.Key W.Input W.Value) × IsAt self.now.rows key i r) }
        ensures none { IfNone result (IsGone self.now.rows key) }
    {
        find::<W>(self.cells.as_slice(), &self.index, key)
    }

    /// The key of the cell at a place.
    pub fn key_at(&self, place: usize) -> W::Key
        requires { place < length self.now.rows }
        ensures { AtPlace self.now.rows place (λ r. result ≡ r.key) }
    {
        key_in::<W>(self.cells.as_slice(), place)
    }

    /// The place of the dependency of this number of the cell at a place. None where the cell has no more.
    pub fn need_at(&self, place: usize, number: usize) -> Option<usize>
        requires { place < length self.now.rows }
        ensures some { IfSome result (IsNeedAt self.now.rows place number) }
        ensures none { IfNone result (HasNoNeedAt self.now.rows place number) }
    {
        need_in::<W>(self.cells.as_slice(), place, number)
    }

    /// The places of the dependencies of the cell at a place.
    pub fn needs_at(&self, place: usize) -> &[usize]
        requires { place < length self.now.rows }
        ensures { AreNeedsAt self.now.rows place result.now }
    {
        needs_in::<W>(self.cells.as_slice(), place)
    }

    /// What a look at the cell at a place shows. Where the cell has a claim that isn't stale, the cells that it depends on aren't
    /// looked at.
    pub fn look_at(&self, place: usize) -> Look<W::Key>
        requires { place < length self.now.rows }
        ensures { AtPlace self.now.rows place (λ r. Looks self.now.rows r.key result) }
    {
        match self.claimed_at(place) {
            Some(_number) => Look::Ready,
            None => look_at::<W>(self.cells.as_slice(), place),
        }
    }

    /// A claim of the cell at a place, as `claim` of its key.
    pub fn claim_at_place(&mut self, place: usize, input: Arc<W::Input>) -> Claimed
        requires draws { self.old.draws ≤ 2 ^ 64 - 2 ^ 20 }
        requires ready { AtPlace self.old.rows place (λ r. Looks self.old.rows r.key Look.Ready) }
        ensures { AtPlace self.old.rows place (λ r. ClaimsIn self.old r.key (arc_value input) result self.new) }
    {
        let answer = claim_at::<W>(&mut self.cells, place, input, self.draws + 1);
        self.draws = drawn(answer, self.draws);
        self.lowest = next_dirty::<W>(self.cells.as_slice(), self.lowest);
        answer
    }

    /// Whether the cell at a place keeps a pair, and no open claim has the input of this.
    pub fn can_reuse_at(&self, place: usize) -> bool
        requires { place < length self.now.rows }
        ensures { IsTrue result ↔ AtPlace self.now.rows place CanReuse }
    {
        can_reuse_in::<W>(self.cells.as_slice(), place)
    }

    /// A claim of the cell at a place for the input of its kept pair, as `claim_at_place`, which is Reused.
    /// Nothing is compared.
    pub fn reuse_at(&mut self, place: usize)
        requires draws { self.old.draws ≤ 2 ^ 64 - 2 ^ 20 }
        requires ready { AtPlace self.old.rows place (λ r. Looks self.old.rows r.key Look.Ready) }
        requires can { AtPlace self.old.rows place CanReuse }
        ensures { AtPlace self.old.rows place (λ r. ReusesIn self.old r.key self.new) }
    {
        reuse_in::<W>(&mut self.cells, place, self.draws + 1);
        self.draws += 1;
        self.lowest = next_dirty::<W>(self.cells.as_slice(), self.lowest);
    }

    /// The pair that is kept of the cell at a place.
    pub fn kept_at(&self, place: usize) -> Option<&Done<W>>
        requires { place < length self.now.rows }
        ensures { AtPlace self.now.rows place (λ r. option_map (λ d. d.now) result ≡ r.kept) }
    {
        kept_in::<W>(self.cells.as_slice(), place)
    }

    /// The number of the open claim of the cell at a place, where it isn't stale. Such a cell is ready if it is
    /// dirty, and a claim of the input that was last handed in is Taken.
    pub fn claimed_at(&self, place: usize) -> Option<u64>
        requires { place < length self.now.rows }
        ensures some { IfSome result (λ n. AtPlace self.now.rows place (λ r. IsClaimed r n)) }
        ensures none { IfNone result (AtPlace self.now.rows place (λ r. IsStale r false → ⊥)) }
    {
        claimed_in::<W>(self.cells.as_slice(), place)
    }

    /// The place of the first dirty cell at or behind a place. None where each of these is clean. So all dirty
    /// cells are passed in one walk, and the cells before the first dirty one of all are not.
    pub fn dirty_from(&self, place: usize) -> Option<usize>
        ensures some { IfSome result (IsFirstDirtyFrom self.now.rows place) }
        ensures none { IfNone result (AreCleanFrom self.now.rows place) }
    {
        dirty_from::<W>(self.cells.as_slice(), self.lowest, place)
    }

    /// The greatest number that was drawn.
    pub fn draws(&self) -> u64
        ensures { result ≡ self.now.draws }
    {
        self.draws
    }

    /// What cells keep through every call.
    pub fn sound(&self)
        ensures { IsSound W.relates self.now }
    {
        let _draws = self.draws;
    }
}
