//! Cells that keep the halves of numbers.

ghost use Rattle.std.specs.Prelude.{◌≡◌, ◌<◌, ◌↔◌, ℕ, IsTrue, length};
ghost use Rattle.lay_cells.specs.Shapes.{Entry, IsEachOnce, IsIn};

use lay_cells::{Cells, Claimed, Done, Finished, Look, Shape, Work};
use lay_units::NoMemory;
use std::alloc::Global;
use std::sync::Arc;

/// The work of halving a number.
pub(crate) struct Halving;

impl Work for Halving {
    ghost use Rattle.std.specs.Prelude.{◌≡◌, ◌/◌};
    ghost use Rattle.std.proofs.Common.{rules};

    type Key = u32;

    type Input = u64;

    type Value = u64;

    ghost relates = { λ input value. value ≡ input / 2 };

    fn same(a: &u64, b: &u64) -> bool {
        a == b
    }

    ghost exact = { Prim.search rules };
}

/// More numbers than a case draws.
const MANY: u64 = 1000000;

fn halved(alloc: Global, key: u32, number: u64, input: u64) -> Result<Done<Halving>, NoMemory> {
    let value = Arc::new(alloc, input / 2)?;
    let input = Arc::new(alloc, input)?;
    Ok(Done::new(key, number, input, value))
}

/// A claim; None where the cell isn't ready.
pub(crate) fn claim(
    alloc: Global,
    cells: &mut Cells<Halving>,
    key: u32,
    input: u64,
) -> Result<Option<Claimed>, NoMemory> {
    let input = Arc::new(alloc, input)?;
    if cells.draws() > MANY {
        return Ok(None);
    }
    match cells.look(key) {
        Look::Ready => Ok(Some(cells.claim(key, input))),
        _ => Ok(None),
    }
}

/// Finishes the claim of this number with the half of the input.
pub(crate) fn finish(
    alloc: Global,
    cells: &mut Cells<Halving>,
    key: u32,
    number: u64,
    input: u64,
) -> Result<Finished, NoMemory> {
    let done = halved(alloc, key, number, input)?;
    Ok(cells.finish(done))
}

/// The value that is kept under the key.
pub(crate) fn value(cells: &Cells<Halving>, key: u32) -> Option<u64> {
    match cells.value(key) {
        Some(value) => Some(**value),
        None => None,
    }
}

/// Gives the cells a shape; false where there are too many numbers.
pub(crate) fn reshape(
    cells: &mut Cells<Halving>,
    shape: Shape<u32>,
    fresh: &[u32],
) -> Result<bool, NoMemory> {
    if cells.draws() > MANY {
        return Ok(false);
    }
    cells.reshape(shape, fresh)?;
    Ok(true)
}

/// Puts a key with at most two dependencies at the end; false where it may not stand there.
pub(crate) fn put(shape: &mut Shape<u32>, key: u32, needs: &[u32]) -> Result<bool, NoMemory> {
    if !is_short(shape) || has_key(shape, key) || !has_keys(shape, needs) || !are_apart(needs) {
        return Ok(false);
    }
    shape.push(key, needs)?;
    Ok(true)
}

fn is_short(shape: &Shape<u32>) -> bool
    ensures { IsTrue result → length shape.now < 1000 }
{
    shape.keys().len() < 1000
}

fn has_key(shape: &Shape<u32>, key: u32) -> bool
    ensures { IsTrue result ↔ ((e : Entry ℕ) × IsIn shape.now e × (e.key ≡ key)) }
{
    shape.keys().contains(&key)
}

/// False for more than two keys.
fn has_keys(shape: &Shape<u32>, keys: &[u32]) -> bool
    ensures { IsTrue result → (k : ℕ) → IsIn keys.now k → (e : Entry ℕ) × IsIn shape.now e × (e.key ≡ k) }
{
    match keys {
        [] => true,
        [a] => has_key(shape, *a),
        [a, b] => has_key(shape, *a) && has_key(shape, *b),
        _ => false,
    }
}

/// False for more than two keys.
fn are_apart(keys: &[u32]) -> bool
    ensures { IsTrue result → IsEachOnce keys.now }
{
    match keys {
        [] => true,
        [_] => true,
        [a, b] => a != b,
        _ => false,
    }
}
