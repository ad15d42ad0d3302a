//! The boxes of a flow with their marks.

ghost use Rattle.std.specs.Prelude.{◌≡◌, ℕ, length};
ghost use Rattle.lay_flow.specs.Blocks.Lengths.{length_at};
ghost use Rattle.lay_flow.specs.Blocks.Weights.{weight};
ghost use Rattle.lay_flow.specs.Pass.Bounds.{IsMarkNear};

use crate::blocks::{BoxAt, Boxes};
use lay_units::Unit;

/// The boxes of a flow, and their marks as far as they are known.
#[derive(Clone, Copy)]
pub(crate) struct MarkedBoxes<'a> {
    pub boxes: Boxes<'a>,
    pub marks: &'a [Unit],
    ghost count: { length marks.now ≡ length boxes.list.now },
    ghost near: { (j : ℕ) → IsMarkNear (weight boxes.list.now j) (length_at marks.now j) },
}

/// A box of a flow, and the marks of all.
#[derive(Clone, Copy)]
pub(crate) struct MarkedBox<'a> {
    pub at: BoxAt<'a>,
    pub marks: &'a [Unit],
    ghost count: { length marks.now ≡ length at.boxes.list.now },
    ghost near: { (j : ℕ) → IsMarkNear (weight at.boxes.list.now j) (length_at marks.now j) },
}
