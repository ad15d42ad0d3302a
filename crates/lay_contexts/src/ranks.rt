//! The places of the boxes of a context in the lists of their homes.

ghost use Rattle.std.specs.Prelude.{ℕ, ◌≡◌, ◌<◌, ◌+◌, ◌++◌, ◌∷◌, [], List, IfOk, OnOk, length, slice_index, slice_index_or};
ghost use Rattle.lay_contexts.specs.FormattingBoxes.{at_home_before, rank};
ghost use Rattle.lay_contexts.specs.Partings.{AreRanksTo};

use crate::homes::place_at;
use lay_units::NoMemory;
use std::alloc::Global;
use std::marker::Model;

/// Places of boxes, which contracts see as the list of them.
#[derive(Drop)]
pub(crate) struct Places {
    items: Vec<usize>,
}

impl Model for Places {
    ghost use Rattle.std.specs.Prelude.{List, ℕ};

    ghost Value = { List ℕ };

    ghost view = { λ p. p.items.items };
}

impl Places {
    /// No place.
    fn none(alloc: Global) -> Places
        ensures { result ≡ [] }
    {
        Places {
            items: Vec::new(alloc),
        }
    }

    /// The places, in order.
    pub(crate) fn as_slice(&self) -> &[usize]
        ensures { result.now ≡ self.now }
    {
        self.items.as_slice()
    }

    /// Adds a place, and says how many there are then.
    fn add(&mut self, place: usize) -> Result<usize, NoMemory>
        ensures places { OnOk result (self.new ≡ self.old ++ place ∷ []) }
        ensures count { IfOk result (λ n. n ≡ length self.new) }
    {
        self.items.push(place)?;
        Ok(self.items.len())
    }
}

/// For each box its place in the list of its home, and the places of those at home in it.
#[derive(Drop)]
pub(crate) struct RankLists {
    pub ranks: Vec<usize>,
    pub at_home: Vec<Places>,
}

/// The ranks of boxes with these homes.
pub(crate) fn ranks(alloc: Global, homes: &[usize]) -> Result<RankLists, NoMemory>
    requires { (k : ℕ) → k < length homes.now → slice_index homes.now k < length homes.now }
    ensures { IfOk result (λ r. AreRanksTo homes.now r.ranks.items r.at_home.items (length homes.now)) }
{
    let mut ranks = Vec::with_capacity(alloc, homes.len())?;
    let mut at_home = no_places(alloc, homes.len())?;
    for k in 0..homes.len() {
        let rank = rank(homes, &mut at_home, k)?;
        ranks.push(rank)?;
    }
    Ok(RankLists { ranks, at_home })
}

/// So many lists without places.
fn no_places(alloc: Global, count: usize) -> Result<Vec<Places>, NoMemory>
    ensures count { IfOk result (λ v. length v.items ≡ count) }
    ensures none { IfOk result (λ v. (k : ℕ) → slice_index_or v.items k [] ≡ []) }
{
    let mut lists = Vec::with_capacity(alloc, count)?;
    for _ in 0..count {
        lists.push(Places::none(alloc))?;
    }
    Ok(lists)
}

/// The rank of the box at k, which is noted in the list of its home.
fn rank(homes: &[usize], at_home: &mut Vec<Places>, k: usize) -> Result<usize, NoMemory>
    requires within { k < length homes.now }
    requires home { slice_index homes.now k < length homes.now }
    requires lists { length at_home.old.items ≡ length homes.now }
    requires before { (r : ℕ) → r < length homes.now → slice_index_or at_home.old.items r [] ≡ at_home_before homes.now r k }
    ensures rank { IfOk result (λ n. n ≡ rank homes.now k) }
    ensures lists { OnOk result (length at_home.new.items ≡ length homes.now) }
    ensures after { OnOk result
        ((r : ℕ) → r < length homes.now → slice_index_or at_home.new.items r [] ≡ at_home_before homes.now r (k + 1)) }
{
    if k == 0 {
        return Ok(0);
    }
    let home = place_at(homes, k);
    let count = at_home[home].add(k)?;
    Ok(count)
}
