//! How deep boxes stand in each other in the lines of a container.

ghost use Rattle.std.specs.Prelude.{◌≡◌, ◌↔◌, ◌+◌, ◌≤◌, IsTrue, None, IfSome};
ghost use Rattle.lay_lines.specs.Content.LineContents.{AreNested, AreNestedParts, boxes_of_part, open_count_after, open_after_parts};

use crate::content::budgets::boxes_of_part;
use crate::content::content::{Part, Stretch};

/// Whether nowhere more than 128 inline boxes and atomic boxes stand in each other.
pub fn are_nested(stretches: &[Stretch]) -> bool
    ensures { IsTrue result ↔ AreNested 0 stretches.now }
{
    let mut count = 0;
    for k in 0..stretches.len() {
        match open_after_parts(count, stretches[k].parts.as_slice()) {
            None => return false,
            Some(after) => count = after,
        }
    }
    true
}

/// How many inline boxes are open after these parts, where so many are before them and no more than 128 stand in each other.
fn open_after_parts(before: u64, parts: &[Part]) -> Option<u64>
    requires { before ≤ 128 }
    ensures some { IfSome result (λ after. after ≡ open_after_parts before parts.now) }
    ensures nested { IfSome result (λ _. AreNestedParts before parts.now) }
    ensures few { IfSome result (λ after. after ≤ 128) }
    ensures none { result ≡ None → AreNestedParts before parts.now → ⊥ }
{
    let mut count = before;
    for k in 0..parts.len() {
        count = open_after_part(count, &parts[k])?;
    }
    Some(count)
}

fn open_after_part(before: u64, part: &Part) -> Option<u64>
    requires { before ≤ 128 }
    ensures some { IfSome result (λ after. after ≡ open_count_after before part.now) }
    ensures nested { IfSome result (λ _. before + boxes_of_part part.now ≤ 128) }
    ensures few { IfSome result (λ after. after ≤ 128) }
    ensures none { result ≡ None → before + boxes_of_part part.now ≤ 128 → ⊥ }
{
    if 128 < before + boxes_of_part(part) {
        return None;
    }
    Some(open_after(before, part))
}

fn open_after(before: u64, part: &Part) -> u64
    requires few { before ≤ 128 }
    requires nested { before + boxes_of_part part.now ≤ 128 }
    ensures value { result ≡ open_count_after before part.now }
    ensures few { result ≤ 128 }
{
    match part {
        Part::Start(_) => before + 1,
        Part::End(_) => before.saturating_sub(1),
        _ => before,
    }
}
