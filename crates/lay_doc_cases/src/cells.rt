//! Histories of cells that keep the halves of numbers. The calls:
//!
//!     reshape KEY NEED NEED; KEY ..     with ` fresh KEY ..` behind it, where keys are fresh
//!     mark KEY ..
//!     claim KEY INPUT                   `NotReady` where the cell isn't
//!     finish KEY NUMBER INPUT           with the half of the input
//!     give-back KEY NUMBER
//!     look KEY, value KEY, laid KEY, draws, first-dirty
//!     state                             draws and first-dirty; look, value and laid of each of 1 to 7
//!
//! A key has at most two needs, which stand before it.

use crate::case::Subject;
use crate::halving::{Halving, claim, finish, put, reshape, value};
use crate::notation::{done, numbers, shown};
use lay_cells::{Cells, Shape};
use lay_units::NoMemory;
use std::alloc::Global;

/// The cells of a case.
#[derive(Drop)]
pub(crate) struct HalvingCells {
    cells: Cells<Halving>,
}

impl HalvingCells {
    /// No cells yet.
    pub(crate) fn new(alloc: Global) -> HalvingCells {
        HalvingCells {
            cells: Cells::new(alloc),
        }
    }

    fn reshape(&mut self, alloc: Global, rest: &str) -> Result<Option<String>, NoMemory> {
        let (entries, fresh) = rest.split_once(" fresh ").unwrap_or((rest, ""));
        let (Some(shape), Some(fresh)) = (shape(alloc, entries)?, numbers(alloc, fresh)?) else {
            return Ok(None);
        };
        if reshape(&mut self.cells, shape, fresh.as_slice())? {
            done(alloc)
        } else {
            Ok(None)
        }
    }

    fn mark(&mut self, alloc: Global, rest: &str) -> Result<Option<String>, NoMemory> {
        let Some(keys) = numbers(alloc, rest)? else {
            return Ok(None);
        };
        self.cells.mark(keys.as_slice());
        done(alloc)
    }

    fn claim(&mut self, alloc: Global, key: u32, input: u64) -> Result<Option<String>, NoMemory> {
        match claim(alloc, &mut self.cells, key, input)? {
            Some(answer) => Ok(Some(shown(alloc, answer)?)),
            None => Ok(Some(String::from_str(alloc, "NotReady")?)),
        }
    }

    /// A claim, or one that is finished or given back: a call with a key and numbers.
    fn work(
        &mut self,
        alloc: Global,
        call: &str,
        numbers: &[u32],
    ) -> Result<Option<String>, NoMemory> {
        match (call, numbers) {
            ("claim", [key, input]) => self.claim(alloc, *key, u64::from(*input)),
            ("finish", [key, number, input]) => {
                let (number, input) = (u64::from(*number), u64::from(*input));
                let answer = finish(alloc, &mut self.cells, *key, number, input)?;
                Ok(Some(shown(alloc, answer)?))
            }
            ("give-back", [key, number]) => {
                let answer = self.cells.give_back(*key, u64::from(*number));
                Ok(Some(shown(alloc, answer)?))
            }
            _ => self.read(alloc, call, numbers),
        }
    }

    fn read(&self, alloc: Global, call: &str, numbers: &[u32]) -> Result<Option<String>, NoMemory> {
        match (call, numbers) {
            ("look", [key]) => Ok(Some(shown(alloc, self.cells.look(*key))?)),
            ("value", [key]) => Ok(Some(shown(alloc, value(&self.cells, *key))?)),
            ("laid", [key]) => Ok(Some(shown(alloc, self.cells.laid(*key))?)),
            ("draws", []) => Ok(Some(shown(alloc, self.cells.draws())?)),
            ("first-dirty", []) => Ok(Some(shown(alloc, self.cells.first_dirty())?)),
            ("state", []) => Ok(Some(self.state(alloc)?)),
            _ => Ok(None),
        }
    }

    fn state(&self, alloc: Global) -> Result<String, NoMemory> {
        let draws = self.cells.draws();
        let first = self.cells.first_dirty();
        let mut text = format!(in alloc; "{draws} {first:?}")?;
        for key in 1..8 {
            let look = self.cells.look(key);
            let laid = self.cells.laid(key);
            let value = value(&self.cells, key);
            write!(text, "; {look:?} {value:?} {laid:?}")?;
        }
        Ok(text)
    }
}

impl Subject for HalvingCells {
    fn answer(&mut self, alloc: Global, line: &str) -> Result<Option<String>, NoMemory> {
        let (call, rest) = line.split_once(' ').unwrap_or((line, ""));
        match call {
            "reshape" => self.reshape(alloc, rest),
            "mark" => self.mark(alloc, rest),
            _ => match numbers(alloc, rest)? {
                Some(numbers) => self.work(alloc, call, numbers.as_slice()),
                None => Ok(None),
            },
        }
    }
}

/// The shape of these entries; None where they make none.
fn shape(alloc: Global, entries: &str) -> Result<Option<Shape<u32>>, NoMemory> {
    let mut shape = Shape::new(alloc);
    for entry in entries.split("; ") {
        if entry.is_empty() {
            continue;
        }
        if !has_put(alloc, &mut shape, entry)? {
            return Ok(None);
        }
    }
    Ok(Some(shape))
}

/// Puts an entry at the end; false where it may not stand there.
fn has_put(alloc: Global, shape: &mut Shape<u32>, entry: &str) -> Result<bool, NoMemory> {
    let Some(numbers) = numbers(alloc, entry)? else {
        return Ok(false);
    };
    match numbers.as_slice() {
        [key, needs @ ..] => put(shape, *key, needs),
        [] => Ok(false),
    }
}
