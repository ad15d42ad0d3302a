//! The marks of the boxes of a run that ended.

ghost use Rattle.std.specs.Prelude.{◌≡◌, ◌+◌, ◌<◌, ◌≤◌, length, List};
ghost use Rattle.lay_units.specs.declared.length.Unit.{Unit};
ghost use Rattle.lay_flow.specs.Pass.State.{Settled};

use crate::blocks::{BoxAt, Boxes};
use crate::columns::{flag_at, length_at, write_at};
use lay_units::Unit;

/// A run that ended at a mark. It has the top margins of the boxes from `first` to before `end`.
#[derive(Clone, Copy)]
pub(crate) struct EndedRun<'a> {
    pub boxes: Boxes<'a>,
    /// The boxes that are known to be collapsed through.
    pub through: &'a [bool],
    pub first: usize,
    pub end: usize,
    pub mark: Unit,
    ghost count: { length through.now ≡ length boxes.list.now },
    ghost positive: { 0 < first },
    ghost order: { first ≤ end },
    ghost within: { end ≤ length boxes.list.now },
}

impl EndedRun<'_> {
    /// Gives its boxes their marks. Of those that are collapsed through, the ones whose parent's top margin is in an
    /// earlier run keep the mark that they have.
    pub(crate) fn settle(&self, marks: &mut Vec<Unit>)
        requires { length marks.old.items ≡ length self.now.boxes.list.now }
        ensures { Settled self.now.boxes.list.now
            (record {
              through = self.now.through.now;
              first = self.now.first;
              next = self.now.end;
              mark = self.now.mark.0;
            }) marks.old.items marks.new.items }
    {
        for k in self.first..self.end {
            self.settle_one(marks, k);
        }
    }

    fn settle_one(&self, marks: &mut Vec<Unit>, k: usize)
        requires marks { length marks.old.items ≡ length self.now.boxes.list.now }
        requires order { self.now.first ≤ k }
        requires within { k < self.now.end }
        ensures { (before : List Unit)
            → Settled self.now.boxes.list.now
            (record { through = self.now.through.now; first = self.now.first; next = k; mark = self.now.mark.0 }) before marks.old.items
            → Settled self.now.boxes.list.now
            (record {
              through = self.now.through.now;
              first = self.now.first;
              next = k + 1;
              mark = self.now.mark.0;
            }) before marks.new.items }
    {
        if !flag_at(self.through, k) {
            write_at(marks, k, self.mark);
            return;
        }
        let at = BoxAt {
            boxes: self.boxes,
            k,
        };
        let parent = at.parent();
        if parent >= self.first {
            let inherited = length_at(marks, parent);
            write_at(marks, k, inherited);
        }
    }
}
