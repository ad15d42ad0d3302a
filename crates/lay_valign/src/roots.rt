//! The roots of aligned subtrees (CSS 2.2, 10.8.1).

ghost use Rattle.std.specs.Prelude.{◌≡◌, ◌<◌, length, IfOk};
ghost use Rattle.lay_valign.specs.Subtrees.{root_of};
ghost use Rattle.lay_valign.specs.PartsFit.{PartsFit};
ghost use Rattle.lay_valign.specs.Pass.Columns.{RootsTo};

use crate::parts::{Part, part_of};
use lay_units::NoMemory;
use std::alloc::Global;

/// For each part the place of its root.
pub fn roots_of(alloc: Global, parts: &[Part]) -> Result<Vec<usize>, NoMemory>
    requires { PartsFit parts.now }
    ensures { IfOk result (λ roots. RootsTo parts.now (length parts.now) roots.items) }
{
    let mut roots = Vec::new(alloc);
    for k in 0..parts.len() {
        let root = root(parts, roots.as_slice(), k);
        roots.push(root)?;
    }
    Ok(roots)
}

fn root(parts: &[Part], roots: &[usize], k: usize) -> usize
    requires parts { PartsFit parts.now }
    requires place { k < length parts.now }
    requires known { length roots.now ≡ k }
    ensures { result ≡ root_of parts.now roots.now k }
{
    if k == 0 {
        return 0;
    }
    let part = part_of(parts, k);
    if part.shift.begins_subtree() {
        return k;
    }
    roots[part.parent as usize]
}
