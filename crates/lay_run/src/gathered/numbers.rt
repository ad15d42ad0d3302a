//! The numbers of listed nodes, by their ids.

ghost use Rattle.std.specs.Prelude.{◌≡◌, ◌==◌, ◌≤◌, ℕ, [], None, Some, if◌then◌else◌, OnOk, OnErr};
ghost use Rattle.lay_units.specs.Limits.{most_nodes};
ghost use Rattle.lay_doc.specs.Index.{is_up_to};
ghost use Rattle.lay_run.specs.Gathered.Numbers.{number_of};

use lay_doc::{add_number, is_up_to};
use lay_units::NoMemory;
use std::alloc::Global;
use std::collections::BTreeMap;

/// Most documents number their nodes in the order of the list: the first ids are 1, 2, 3 and so on, and stand in no map.
#[derive(Drop)]
pub struct Numbers {
    /// The ids from 1 up to this one came first, in this order.
    in_order: usize,
    /// The numbers of the other ids.
    others: BTreeMap<u32, usize>,
}

impl Numbers {
    /// The numbers of no node. Nothing is allocated.
    pub fn new(alloc: Global) -> Numbers
        ensures in_order { result.in_order ≡ 0 }
        ensures others { result.others.entries ≡ [] }
    {
        Numbers {
            in_order: 0,
            others: BTreeMap::new(alloc),
        }
    }

    /// The number of this id.
    pub fn find(&self, id: u32) -> Option<usize>
        ensures { result ≡ number_of self.now id }
    {
        if is_up_to(id, self.in_order) {
            return Some(id as usize - 1);
        }
        let number = self.others.get(&id)?;
        Some(*number)
    }

    /// Gives an id that has none a number. On an error all is as before.
    pub fn add(&mut self, id: u32, number: usize) -> Result<(), NoMemory>
        requires fresh { number_of self.old id ≡ None }
        requires few { number ≤ most_nodes }
        ensures ok { OnOk result ((x : ℕ) → number_of self.new x ≡ (if x == id then Some number else number_of self.old x)) }
        ensures same_order { OnErr result (self.new.in_order ≡ self.old.in_order) }
        ensures same_others { OnErr result (self.new.others.entries ≡ self.old.others.entries) }
    {
        if number == self.in_order && id as usize == number + 1 {
            self.in_order = number + 1;
            return Ok(());
        }
        add_number(&mut self.others, id, number)
    }
}
