//! What content may come to at most, and what is left of that after some of it.

ghost use Rattle.std.specs.Prelude.{◌≡◌, ◌+◌, ◌*◌, ◌/◌, ◌≤◌, ◌<◌, None, IfSome};
ghost use Rattle.lay_valign.specs.Near.{distance};
ghost use Rattle.lay_lines.specs.Content.Budgets.{
  Covers,
  Leaves,
  box_need,
  full_budget,
  need_of_part,
  need_of_parts,
  need_of_stretch,
  own_need,
  width_need,
};
ghost use Rattle.lay_lines.specs.Content.LineContents.{boxes_of_part, hull, positive};

use crate::content::content::{Part, Stretch};
use crate::content::frame::Extent;
use lay_units::Unit;

/// What is left for content: how far its parts may still take its end, and how high its atomic boxes may be, each together with
/// its baseline, in 1/64 px; how many inline boxes and atomic boxes may come; and how many stretches and floats.
#[derive(Clone, Copy)]
pub struct Budget {
    pub spread: u64,
    pub hulls: u64,
    pub boxes: u64,
    pub weight: u64,
}

impl Budget {
    /// What all content has.
    pub fn full() -> Budget
        ensures { result ≡ full_budget }
    {
        Budget {
            spread: 288230376151711744,
            hulls: 558446353793941504,
            boxes: 2147483648,
            weight: 2097151,
        }
    }

    /// What a stretch with its floats leaves.
    pub fn after_stretch(self, tab: Unit, stretch: &Stretch) -> Option<Budget>
        ensures some { IfSome result (λ left. Leaves (need_of_stretch tab.0 stretch.now) self left) }
        ensures none { result ≡ None → Covers (need_of_stretch tab.0 stretch.now) self → ⊥ }
    {
        let left = self.after_own(stretch)?;
        left.after_parts(tab, stretch.parts.as_slice())
    }

    /// What a stretch leaves without its parts: it and its floats.
    fn after_own(self, stretch: &Stretch) -> Option<Budget>
        ensures some { IfSome result (λ left. Leaves (own_need stretch.now) self left) }
        ensures none { result ≡ None → Covers (own_need stretch.now) self → ⊥ }
    {
        let left = spend(self.weight, stretch.heads.as_slice().len() as u64)?;
        let left = spend(left, stretch.floats.as_slice().len() as u64)?;
        let weight = spend(left, 1)?;
        Some(Budget { weight, ..self })
    }

    fn after_parts(self, tab: Unit, parts: &[Part]) -> Option<Budget>
        ensures some { IfSome result (λ left. Leaves (need_of_parts tab.0 parts.now) self left) }
        ensures none { result ≡ None → Covers (need_of_parts tab.0 parts.now) self → ⊥ }
    {
        let mut left = self;
        for k in 0..parts.len() {
            left = left.after_part(tab, &parts[k])?;
        }
        Some(left)
    }

    fn after_part(self, tab: Unit, part: &Part) -> Option<Budget>
        ensures some { IfSome result (λ left. Leaves (need_of_part tab.0 part.now) self left) }
        ensures none { result ≡ None → Covers (need_of_part tab.0 part.now) self → ⊥ }
    {
        match part {
            Part::Space(advance) | Part::PreservedSpace(advance) | Part::Text(advance) => {
                self.after_width(advance.width)
            }
            Part::Tab(_) => self.after_width(tab),
            Part::Linefeed => Some(self),
            Part::Start(start) => self.after_inline_box(start.width),
            Part::End(end) => self.after_width(end.width),
            Part::Atomic(atomic) => self.after_atomic_box(atomic.width, atomic.extent),
        }
    }

    fn after_width(self, width: Unit) -> Option<Budget>
        ensures some { IfSome result (λ left. Leaves (width_need width.0) self left) }
        ensures none { result ≡ None → Covers (width_need width.0) self → ⊥ }
    {
        let spread = spend(self.spread, distance(width))?;
        Some(Budget { spread, ..self })
    }

    fn after_inline_box(self, width: Unit) -> Option<Budget>
        ensures some { IfSome result (λ left. Leaves (box_need width.0 0) self left) }
        ensures none { result ≡ None → Covers (box_need width.0 0) self → ⊥ }
    {
        let left = self.after_width(width)?;
        let boxes = spend(left.boxes, 1)?;
        Some(Budget { boxes, ..left })
    }

    fn after_atomic_box(self, width: Unit, extent: Extent) -> Option<Budget>
        ensures some { IfSome result (λ left. Leaves (box_need width.0 (hull extent)) self left) }
        ensures none { result ≡ None → Covers (box_need width.0 (hull extent)) self → ⊥ }
    {
        Some(Budget {
            spread: spend(self.spread, distance(width))?,
            hulls: spend_hull(self.hulls, extent)?,
            boxes: spend(self.boxes, 1)?,
            weight: self.weight,
        })
    }
}

/// Whether a part is an inline box or an atomic box, as a number.
pub fn boxes_of_part(part: &Part) -> u64
    ensures { result ≡ boxes_of_part part.now }
{
    match part {
        Part::Start(_) | Part::Atomic(_) => 1,
        _ => 0,
    }
}

/// The weight of lines with so many stretches and floats, whose atomic boxes have these hulls together, if it is at most
/// 16,711,680.
pub fn weight_by(weight: u64, hulls: u64) -> Option<u64>
    requires weight { weight < 2097152 }
    ensures some { IfSome result (λ w. w ≡ 9 * weight + hulls / 68719476736 + 1) }
    ensures small { IfSome result (λ w. w ≤ 16711680) }
    ensures none { result ≡ None → 16711680 < 9 * weight + hulls / 68719476736 + 1 }
{
    let sum = 9 * weight + hulls / 68719476736 + 1;
    if 16711680 < sum {
        return None;
    }
    Some(sum)
}

fn distance(length: Unit) -> u64
    ensures { result ≡ distance length.0 }
{
    length.0.unsigned_abs()
}

fn spend_hull(left: u64, extent: Extent) -> Option<u64>
    ensures some { IfSome result (λ rest. hull extent + rest ≡ left) }
    ensures none { result ≡ None → left < hull extent }
{
    let left = spend(left, positive(extent.above))?;
    spend(left, positive(extent.below))
}

fn positive(length: Unit) -> u64
    ensures { result ≡ positive length.0 }
{
    if length.0 < 0 {
        return 0;
    }
    distance(length)
}

fn spend(left: u64, by: u64) -> Option<u64>
    ensures some { IfSome result (λ rest. by + rest ≡ left) }
    ensures none { result ≡ None → left < by }
{
    left.checked_sub(by)
}
