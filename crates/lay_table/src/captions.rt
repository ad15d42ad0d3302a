//! The captions of a table (CSS 2.2, 17.4.1).

ghost use Rattle.std.specs.Prelude.{◌≡◌, ◌<◌, length, IfOk};
ghost use Rattle.lay_table.specs.Captions.{ArePlaces, captions_of, captions_on, is_caption_on, is_side};

use lay_box_tree::{BoxNode, is_caption};
use lay_style::CaptionSide;
use lay_units::NoMemory;
use std::alloc::Global;
use std::marker::Model;

/// The places of the captions above and below a table.
#[derive(Drop)]
pub(crate) struct Captions {
    pub above: Vec<usize>,
    pub below: Vec<usize>,
}

impl Model for Captions {
    ghost use Rattle.lay_table.specs.Captions.{Captions as Plain};

    ghost Value = { Plain };

    ghost view = { λ c. record { above = c.above.items; below = c.below.items } };
}

impl Captions {
    ghost use Rattle.std.specs.Prelude.{◌≡◌, ◌<◌, length};
    ghost use Rattle.lay_table.specs.Captions.{table_number};

    /// The number of the table box among the boxes in the wrapper.
    pub(crate) fn table_number(&self) -> usize
        ensures { result ≡ table_number self.now }
    {
        self.above.len() + 1
    }
}

/// The captions among these boxes.
pub(crate) fn captions_of(alloc: Global, boxes: &[BoxNode]) -> Result<Captions, NoMemory>
    ensures captions { IfOk result (λ c. c ≡ captions_of boxes.now) }
    ensures above { IfOk result (λ c. ArePlaces (length boxes.now) c.above) }
    ensures below { IfOk result (λ c. ArePlaces (length boxes.now) c.below) }
{
    Ok(Captions {
        above: captions_on(alloc, CaptionSide::Top, boxes)?,
        below: captions_on(alloc, CaptionSide::Bottom, boxes)?,
    })
}

/// The places of the captions on this side of the table.
fn captions_on(alloc: Global, side: CaptionSide, boxes: &[BoxNode]) -> Result<Vec<usize>, NoMemory>
    ensures captions { IfOk result (λ v. v.items ≡ captions_on side boxes.now) }
    ensures within { IfOk result (λ v. ArePlaces (length boxes.now) v.items) }
{
    let mut captions = Vec::new(alloc);
    for k in 0..boxes.len() {
        if is_caption_on(side, boxes, k) {
            captions.push(k)?;
        }
    }
    Ok(captions)
}

fn is_caption_on(side: CaptionSide, boxes: &[BoxNode], k: usize) -> bool
    requires { k < length boxes.now }
    ensures { result ≡ is_caption_on side boxes.now k }
{
    is_caption(&boxes[k].kind) && is_side(boxes[k].style.table.caption_side, side)
}

fn is_side(a: CaptionSide, b: CaptionSide) -> bool
    ensures { result ≡ is_side a b }
{
    match a {
        CaptionSide::Top => matches!(b, CaptionSide::Top),
        CaptionSide::Bottom => matches!(b, CaptionSide::Bottom),
    }
}
