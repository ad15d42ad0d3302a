//! How far what stands on a line is raised above the line's baseline.

ghost use Rattle.std.specs.Prelude.{◌≡◌, IfOk, OnOk};
ghost use Rattle.lay_inlines.specs.Raises.{
  behind_strut,
  innermost,
  raise_at,
  raise_of,
  raises_after,
  raises_of,
};

use crate::slices::{back, front};
use lay_lines::content::Part;
use lay_units::{NoMemory, Unit};
use std::alloc::Global;
use std::marker::Model;

/// Between two parts of a line's content: how far the inline boxes are raised that are open there, outermost first,
/// and what is to come, in order: each inline box that starts and each atomic box.
#[derive(Drop)]
pub(crate) struct Raises<'a> {
    open_boxes: Vec<Unit>,
    coming: &'a [Unit],
}

impl<'a> Model for Raises<'a> {
    ghost use Rattle.lay_inlines.specs.Raises.{RaisesValue};

    ghost Value = { RaisesValue };

    ghost view = { λ r. record { open_boxes = r.open_boxes.items; coming = r.coming.now } };
}

impl<'a> Raises<'a> {
    /// Where a line with these shifts begins, with so many inline boxes open.
    pub(crate) fn new(
        alloc: Global,
        shifts: &'a [Unit],
        count: usize,
    ) -> Result<Raises<'a>, NoMemory>
        ensures { IfOk result (λ r. r ≡ raises_of shifts.now count) }
    {
        let shifts = behind_strut(shifts);
        let mut open_boxes = Vec::new(alloc);
        open_boxes.extend_from_slice(front(shifts, count))?;
        Ok(Raises {
            open_boxes,
            coming: back(shifts, count),
        })
    }

    /// How far a part here is raised.
    pub(crate) fn of(&self, part: &Part) -> Unit
        ensures { result ≡ raise_of self.now part.now }
    {
        match part {
            Part::Start(_) | Part::Atomic(_) => raise_at(self.coming, 0),
            _ => innermost(self.open_boxes.as_slice()),
        }
    }

    /// Goes over a part.
    pub(crate) fn pass(&mut self, part: &Part) -> Result<(), NoMemory>
        ensures { OnOk result (self.new ≡ raises_after self.old part.now) }
    {
        match part {
            Part::Start(_) => {
                self.open_boxes.push(raise_at(self.coming, 0))?;
                self.coming = back(self.coming, 1);
            }
            Part::End(_) => {
                let _ = self.open_boxes.pop();
            }
            Part::Atomic(_) => self.coming = back(self.coming, 1),
            _ => {}
        }
        Ok(())
    }
}

/// The shifts of a line but that of its strut.
pub(crate) fn behind_strut(shifts: &[Unit]) -> &[Unit]
    ensures { result.now ≡ behind_strut shifts.now }
{
    back(shifts, 1)
}

fn innermost(raises: &[Unit]) -> Unit
    ensures { result ≡ innermost raises.now }
{
    raise_at(raises, raises.len().saturating_sub(1))
}

pub(crate) fn raise_at(raises: &[Unit], k: usize) -> Unit
    ensures { result ≡ raise_at raises.now k }
{
    if k < raises.len() {
        return raises[k];
    }
    Unit(0)
}
