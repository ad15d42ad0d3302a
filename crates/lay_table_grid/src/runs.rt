//! Runs of equal entries.

ghost use Rattle.std.specs.Prelude.{◌≡◌, ◌^◌, ◌<◌, length, slice_get, IfOk, IfSome};
ghost use Rattle.lay_table_grid.specs.MeetingBorders.{among, are_one, before, first_of_run, item as item_of};
ghost use Rattle.lay_table_grid.specs.Pass.Runs.{AreRunStartsTo};

use lay_units::NoMemory;
use std::alloc::Global;

/// For each entry the first of those that stand together with it and are the same.
pub fn run_starts(alloc: Global, entries: &[usize]) -> Result<Vec<u32>, NoMemory>
    requires { length entries.now < 2 ^ 32 }
    ensures { IfOk result (λ starts. AreRunStartsTo entries.now (length entries.now) starts.items) }
{
    let mut starts = Vec::with_capacity(alloc, entries.len())?;
    for k in 0..entries.len() {
        let start = run_start(entries, &starts, k);
        starts.push(start)?;
    }
    Ok(starts)
}

/// The start for the entry at k, where those before it are known.
fn run_start(entries: &[usize], starts: &[u32], k: usize) -> u32
    requires within { k < length entries.now }
    requires few { length entries.now < 2 ^ 32 }
    requires known { AreRunStartsTo entries.now k starts.now }
    ensures { result ≡ first_of_run entries.now k }
{
    if k == 0 {
        return 0;
    }
    if are_one(item(entries, k - 1), item(entries, k)) {
        return starts[k - 1];
    }
    k as u32
}

pub fn item(entries: &[usize], k: usize) -> Option<usize>
    ensures { result ≡ slice_get entries.now k }
{
    match entries.get(k) {
        Some(entry) => Some(*entry),
        None => None,
    }
}

/// The entry before that at k.
pub fn item_before(entries: &[usize], k: usize) -> Option<usize>
    ensures { result ≡ item_of entries.now (before k) }
{
    item(entries, before(k)?)
}

/// Whether both are there and are the same.
pub fn are_one(a: Option<usize>, b: Option<usize>) -> bool
    ensures { result ≡ are_one a b }
{
    match (a, b) {
        (Some(a), Some(b)) => a == b,
        _ => false,
    }
}

/// What stands before the i-th, if anything does.
pub fn before(i: usize) -> Option<usize>
    ensures value { result ≡ before i }
    ensures less { IfSome result (λ k. k < i) }
{
    if i == 0 { None } else { Some(i - 1) }
}

/// The i-th of so many, if there is one.
pub fn among(count: usize, i: usize) -> Option<usize>
    ensures value { result ≡ among count i }
    ensures less { IfSome result (λ k. k < count) }
{
    if i < count { Some(i) } else { None }
}
