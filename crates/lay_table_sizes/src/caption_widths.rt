//! How narrow the captions of a table can be.

ghost use Rattle.std.specs.Prelude.{◌≡◌, IfOk};
ghost use Rattle.lay_table_sizes.specs.CaptionWidths.{captions_minimum, with_box};

use crate::content_widths::widths_at;
use lay_box_tree::{BoxNode, is_caption};
use lay_measure::{PreferredWidths, contribution, greater};
use lay_units::{NoMemory, Unit};

/// The greatest width that a caption takes at least, with its margins.
pub(crate) fn captions_minimum(
    boxes: &[BoxNode],
    inner: &[PreferredWidths],
) -> Result<Unit, NoMemory>
    ensures { IfOk result (λ v. v.0 ≡ captions_minimum inner.now boxes.now) }
{
    let mut least = Unit(0);
    let count = boxes.len();
    for done in 0..count {
        let k = count - 1 - done;
        least = with_box(&boxes[k], widths_at(inner, k), least)?;
    }
    Ok(least)
}

/// The greatest width of captions with that of this box, where it is one.
fn with_box(node: &BoxNode, own: PreferredWidths, least: Unit) -> Result<Unit, NoMemory>
    ensures { IfOk result (λ v. v.0 ≡ with_box node.now own least.0) }
{
    if !is_caption(&node.kind) {
        return Ok(least);
    }
    let taken = contribution(node, own)?;
    Ok(greater(taken.minimum, least))
}
