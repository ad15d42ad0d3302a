//! The strokes of a line.

ghost use Rattle.std.specs.Prelude.{◌≡◌, ◌++◌, ◌∷◌, ◌<◌, ◌+◌, ◌-◌, [], length, drop, slice_index_or, OnOk};

use crate::strokes::Stroke;
use lay_units::NoMemory;
use std::alloc::Global;
use std::marker::Model;

/// The strokes of a line, in order. Most lines have one, which needs no memory of its own: the last one lies in the list.
/// Where there is none, the front says nothing.
#[derive(Drop)]
pub(crate) struct StrokeList {
    front: Vec<Stroke>,
    pub(crate) last: Option<Stroke>,
}

impl Model for StrokeList {
    ghost use Rattle.std.specs.Prelude.{List};
    ghost use Rattle.lay_inlines.specs.declared.strokes.Stroke.{Stroke};
    ghost use Rattle.lay_inlines.specs.StrokeLists.{strokes_in};

    ghost Value = { List Stroke };

    ghost view = { λ l. strokes_in l.front.items l.last };
}

impl StrokeList {
    /// None.
    pub(crate) fn new(alloc: Global) -> StrokeList
        ensures { result ≡ [] }
    {
        StrokeList {
            front: Vec::new(alloc),
            last: None,
        }
    }

    pub(crate) fn clear(&mut self)
        ensures { self.new ≡ [] }
    {
        self.last = None;
    }

    pub(crate) fn push(&mut self, stroke: Stroke) -> Result<(), NoMemory>
        ensures { OnOk result (self.new ≡ self.old ++ stroke ∷ []) }
    {
        match self.last {
            Some(last) => self.front.push(last)?,
            None => self.front.clear(),
        }
        self.last = Some(stroke);
        Ok(())
    }

    pub(crate) fn len(&self) -> usize
        ensures { result ≡ length self.now }
    {
        match &self.last {
            Some(_) => self.front.len() + 1,
            None => 0,
        }
    }

    /// The stroke before these last ones.
    pub(crate) fn from_end(&self, done: usize) -> &Stroke
        requires { done < length self.now }
        ensures { drop (length self.now - (done + 1)) self.now ≡ result.now ∷ drop (length self.now - done) self.now }
    {
        self.at(self.len() - 1 - done)
    }

    fn at(&self, k: usize) -> &Stroke
        requires { k < length self.now }
        ensures { result.now ≡ slice_index_or self.now k result.now }
    {
        match &self.last {
            Some(last) => behind(self.front.as_slice(), last, k),
            None => &self.front[k],
        }
    }
}

/// The stroke at k of these and a last one.
fn behind<'a>(front: &'a [Stroke], last: &'a Stroke, k: usize) -> &'a Stroke
    requires { k < length front.now + 1 }
    ensures { result.now ≡ slice_index_or (front.now ++ last.now ∷ []) k result.now }
{
    if k < front.len() {
        return &front[k];
    }
    last
}
