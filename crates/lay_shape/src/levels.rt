//! The levels of contexts.

ghost use Rattle.std.specs.Prelude.{◌≡◌, ◌<◌, ◌++◌, ◌∷◌, [], IfOk, OnOk, ℕ, length, map, slice_index, slice_index_or, slice_set};
ghost use Rattle.std.specs.List.{range_with_len};
ghost use Rattle.lay_positioned.specs.Levels.{one_if};
ghost use Rattle.lay_shape.specs.Building.{AreByLevel, levels_of};
ghost use Rattle.lay_shape.specs.Levels.{level_of};

use crate::numbers::Numbers;
use crate::ways::is_absolute;
use lay_contexts::Contexts;
use lay_positioned::one_if;
use lay_units::NoMemory;
use std::alloc::Global;

/// The level of each context: how many absolutely positioned ones there are from it out to the root's.
pub(crate) fn levels(alloc: Global, contexts: &Contexts) -> Result<Vec<usize>, NoMemory>
    ensures { IfOk result (λ v. v.items ≡ levels_of contexts.now) }
{
    let count = contexts.len();
    let mut levels = Vec::with_capacity(alloc, count)?;
    for i in 0..count {
        let level = level_of(contexts, &levels, i);
        levels.push(level)?;
    }
    Ok(levels)
}

/// The level of the context with this number, where those before it are known.
fn level_of(contexts: &Contexts, levels: &[usize], i: usize) -> usize
    requires within { i < length contexts.now }
    requires before { levels.now ≡ map (level_of contexts.now) (range_with_len 0 i) }
    ensures { result ≡ level_of contexts.now i }
{
    let _ = contexts.len();
    let own = one_if(is_absolute(contexts, i));
    if i == 0 {
        return own;
    }
    level_at(levels, contexts.at(i).outer()) + own
}

fn level_at(levels: &[usize], i: usize) -> usize
    requires { i < length levels.now }
    ensures { result ≡ slice_index levels.now i }
{
    levels[i]
}

/// For each level that there can be the numbers of the contexts that have it, in order.
pub(crate) fn by_level(alloc: Global, contexts: &Contexts) -> Result<Vec<Numbers>, NoMemory>
    ensures { IfOk result (λ v. AreByLevel contexts.now v.items (length contexts.now)) }
{
    let levels = levels(alloc, contexts)?;
    let mut lists = no_numbers(alloc, contexts.len() + 1)?;
    for i in 0..contexts.len() {
        let level = level_at(&levels, i);
        note(&mut lists, level, i)?;
    }
    Ok(lists)
}

/// Adds a number to the list of its level.
fn note(lists: &mut Vec<Numbers>, level: usize, i: usize) -> Result<(), NoMemory>
    requires { level < length lists.old.items }
    ensures { OnOk result (lists.new.items ≡ slice_set lists.old.items level (slice_index_or lists.old.items level [] ++ i ∷ [])) }
{
    lists[level].push(i)?;
    Ok(())
}

/// So many lists without numbers.
fn no_numbers(alloc: Global, count: usize) -> Result<Vec<Numbers>, NoMemory>
    ensures count { IfOk result (λ v. length v.items ≡ count) }
    ensures none { IfOk result (λ v. (k : ℕ) → slice_index_or v.items k [] ≡ []) }
{
    let mut lists = Vec::with_capacity(alloc, count)?;
    for _ in 0..count {
        lists.push(Numbers::none(alloc))?;
    }
    Ok(lists)
}
