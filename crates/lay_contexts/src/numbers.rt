//! The numbers of the roots of a context.

ghost use Rattle.std.specs.Prelude.{◌≡◌, ◌<◌, ◌≤◌, ◌+◌, IfOk, length, if◌then◌else◌};
ghost use Rattle.lay_contexts.specs.Homes.{is_root};
ghost use Rattle.lay_contexts.specs.Partings.{AreNumbersTo, most_formatting_contexts};

use crate::roots::is_root;
use lay_box_tree::BoxNode;
use lay_units::NoMemory;
use std::alloc::Global;

/// More formatting contexts than any document has.
const MOST_FORMATTING_CONTEXTS: usize = 16777216;

/// For each of these boxes the number of a root there, where `first` is that of the own box, and behind these the number
/// of the next context. NoMemory is also the answer for more than 16,777,216, which no document has.
pub(crate) fn numbers(
    alloc: Global,
    boxes: &[BoxNode],
    first: usize,
) -> Result<Vec<usize>, NoMemory>
    requires { first ≤ most_formatting_contexts }
    ensures { IfOk result (λ v. AreNumbersTo boxes.now first v.items (length boxes.now + 1)) }
{
    let mut numbers = Vec::new(alloc);
    let mut number = first;
    numbers.push(number)?;
    for k in 0..boxes.len() {
        number = behind(boxes, k, number)?;
        numbers.push(number)?;
    }
    Ok(numbers)
}

/// The number behind the box at k, where that of a root there would be this one.
pub(crate) fn behind(boxes: &[BoxNode], k: usize, number: usize) -> Result<usize, NoMemory>
    requires within { k < length boxes.now }
    requires few { number ≤ most_formatting_contexts }
    ensures number { IfOk result (λ n. n ≡ (if is_root boxes.now k then (number + 1) else number)) }
    ensures few { IfOk result (λ n. n ≤ most_formatting_contexts) }
{
    if !is_root(boxes, k) {
        return Ok(number);
    }
    if number >= MOST_FORMATTING_CONTEXTS {
        return Err(NoMemory);
    }
    Ok(number + 1)
}
