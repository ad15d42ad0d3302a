//! Whether two cells are given the same.

ghost use Rattle.std.specs.Prelude.{◌≡◌, ◌↔◌, IsTrue};

use crate::cell_input::CellInput;
use crate::root_input::RootInput;
use crate::root_spot::RootSpot;
use crate::same_input::same_input;
use lay_context::Phase;
use lay_shape::CellKey;

/// Whether two cells are given the same: first their keys are told apart and how many roots they have, and what each root is given at
/// last.
pub fn same_cell_input(a: &CellInput, b: &CellInput) -> bool
    ensures { IsTrue result ↔ (a.now ≡ b.now) }
{
    same_key(a.key(), b.key()) && same_roots(a.roots(), b.roots())
}

fn same_key(a: CellKey, b: CellKey) -> bool
    ensures { IsTrue result ↔ (a ≡ b) }
{
    a.node.0 == b.node.0 && same_phase(a.phase, b.phase)
}

fn same_phase(a: Phase, b: Phase) -> bool
    ensures { IsTrue result ↔ (a ≡ b) }
{
    a == b
}

fn same_roots(a: &[RootInput], b: &[RootInput]) -> bool
    ensures { IsTrue result ↔ (a.now ≡ b.now) }
{
    if a.len() != b.len() {
        return false;
    }
    for k in 0..a.len() {
        if !same_root(&a[k], &b[k]) {
            return false;
        }
    }
    true
}

fn same_root(a: &RootInput, b: &RootInput) -> bool
    ensures { IsTrue result ↔ (a.now ≡ b.now) }
{
    same_links(a.links(), b.links())
        && same_spot(a.around(), b.around())
        && same_input(a.given(), b.given())
}

/// Whether two roots stand at the same place, or neither is said to.
fn same_spot(a: Option<RootSpot>, b: Option<RootSpot>) -> bool
    ensures { IsTrue result ↔ (a ≡ b) }
{
    match (a, b) {
        (Some(a), Some(b)) => a.root == b.root && a.place == b.place,
        (None, None) => true,
        _ => false,
    }
}

/// Whether the boxes of two roots are those of the same other ones.
fn same_links(a: &[Option<usize>], b: &[Option<usize>]) -> bool
    ensures { IsTrue result ↔ (a.now ≡ b.now) }
{
    if a.len() != b.len() {
        return false;
    }
    for k in 0..a.len() {
        if !same_link(&a[k], &b[k]) {
            return false;
        }
    }
    true
}

fn same_link(a: &Option<usize>, b: &Option<usize>) -> bool
    ensures { IsTrue result ↔ (a.now ≡ b.now) }
{
    match (a, b) {
        (Some(a), Some(b)) => *a == *b,
        (None, None) => true,
        _ => false,
    }
}
