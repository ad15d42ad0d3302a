//! The parts of a line.

ghost use Rattle.std.specs.Prelude.{◌≡◌, ◌<◌, ◌^◌, length, IfOk, OnOk};
ghost use Rattle.lay_lines.specs.Content.Extents.{strut_alone, part_by, innermost, stood, opened, opened_all, closed};

use crate::content::content::InlineStart;
use crate::content::frame::Extent;
use lay_units::{NoMemory, Unit};
use lay_valign::{Part as LinePart, Shift};
use std::alloc::Global;
use std::marker::Model;

/// The parts of a line so far, and the places among them of the inline boxes that are open, outermost first.
#[derive(Drop)]
pub struct LineParts {
    places: Vec<u32>,
    parts: Vec<LinePart>,
}

impl Model for LineParts {
    ghost use Rattle.lay_lines.specs.Content.Extents.{LineParts};

    ghost Value = { LineParts };

    ghost view = { λ l. record { places = l.places.items; parts = l.parts.items } };
}

impl LineParts {
    /// Those at the start of a line: the strut, and the inline boxes that are open.
    pub fn first(alloc: Global, strut: Extent, boxes: &[InlineStart]) -> Result<LineParts, NoMemory>
        requires { length (opened_all (strut_alone strut) boxes.now).parts < 2 ^ 32 }
        ensures { IfOk result (λ l. l ≡ opened_all (strut_alone strut) boxes.now) }
    {
        let mut line = LineParts::strut_alone(alloc, strut)?;
        for k in 0..boxes.len() {
            line.open(boxes[k].extent, boxes[k].shift)?;
        }
        Ok(line)
    }

    fn strut_alone(alloc: Global, strut: Extent) -> Result<LineParts, NoMemory>
        ensures { IfOk result (λ l. l ≡ strut_alone strut) }
    {
        let mut parts = Vec::new(alloc);
        parts.push(part_by(strut, Shift::By(Unit(0)), 0))?;
        Ok(LineParts {
            places: Vec::new(alloc),
            parts,
        })
    }

    /// A part more, in the innermost inline box that is open.
    pub fn stand(&mut self, extent: Extent, shift: Shift) -> Result<(), NoMemory>
        ensures { OnOk result (self.new ≡ stood self.old extent shift) }
    {
        let parent = self.innermost();
        self.parts.push(part_by(extent, shift, parent))?;
        Ok(())
    }

    /// An inline box more, which is open then.
    pub fn open(&mut self, extent: Extent, shift: Shift) -> Result<(), NoMemory>
        requires { length self.old.parts < 2 ^ 32 }
        ensures { OnOk result (self.new ≡ opened self.old extent shift) }
    {
        let place = self.parts.len() as u32;
        self.stand(extent, shift)?;
        self.places.push(place)?;
        Ok(())
    }

    /// The innermost inline box is open no longer.
    pub fn close(&mut self)
        ensures { self.new ≡ closed self.old }
    {
        let _ = self.places.pop();
    }

    fn innermost(&self) -> u32
        ensures { result ≡ innermost self.now.places }
    {
        let count = self.places.len();
        if count == 0 {
            return 0;
        }
        self.places[count - 1]
    }

    pub fn as_slice(&self) -> &[LinePart]
        ensures { result.now ≡ self.now.parts }
    {
        self.parts.as_slice()
    }
}

fn part_by(extent: Extent, shift: Shift, parent: u32) -> LinePart
    ensures { result ≡ part_by extent shift parent }
{
    LinePart {
        above: extent.above,
        below: extent.below,
        shift,
        parent,
    }
}
