//! How many absolutely positioned formatting contexts are around each.

ghost use Rattle.std.specs.Prelude.{◌≡◌, ◌<◌, ◌≤◌, ◌+◌, IfOk, length};
ghost use Rattle.lay_positioned.specs.Levels.{AreFewLevels, HasLevels, IsLevelCount, level_beside, one_if};

use crate::absolute::is_absolute;
use lay_contexts::FormattingContexts;
use lay_units::NoMemory;
use std::alloc::Global;

/// The level of each formatting context: how many absolutely positioned ones there are from it out to the root's.
pub fn levels(alloc: Global, contexts: &FormattingContexts) -> Result<Vec<usize>, NoMemory>
    ensures levels { IfOk result (λ v. HasLevels contexts.now v.items) }
    ensures few { IfOk result (λ v. AreFewLevels v.items) }
{
    let count = contexts.len();
    let mut levels = Vec::with_capacity(alloc, count)?;
    for i in 0..count {
        let level = level_of(contexts, &levels, i);
        levels.push(level)?;
    }
    Ok(levels)
}

/// The level of the formatting context with this number, where those of the ones before it are known.
fn level_of(contexts: &FormattingContexts, levels: &[usize], i: usize) -> usize
    requires within { i < length contexts.now }
    requires before { i ≤ length levels.now }
    requires few { AreFewLevels levels.now }
    ensures level { result ≡ level_beside contexts.now levels.now i }
    ensures few { result ≤ i + 1 }
{
    let own = one_if(is_absolute(contexts, i));
    if i == 0 {
        return own;
    }
    levels[contexts.at(i).outer()] + own
}

/// How many levels there are: one more than the highest of these, and of none 1.
pub fn level_count(levels: &[usize]) -> usize
    requires few { AreFewLevels levels.now }
    ensures count { IsLevelCount levels.now result }
    ensures small { result ≤ length levels.now + 1 }
{
    let mut count = 1;
    for k in 0..levels.len() {
        if levels[k] >= count {
            count = levels[k] + 1;
        }
    }
    count
}

/// 1 where it holds, and 0 elsewhere.
pub fn one_if(holds: bool) -> usize
    ensures value { result ≡ one_if holds }
    ensures few { result ≤ 1 }
{
    if holds {
        return 1;
    }
    0
}
