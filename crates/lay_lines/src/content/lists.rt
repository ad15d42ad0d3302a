//! Lists of the records that content is made of.

ghost use Rattle.std.specs.Prelude.{◌≡◌, IfOk};

use crate::content::content::{LineFloat, Part, Stretch};
use lay_units::NoMemory;
use std::alloc::Global;
use std::marker::Model;

/// The parts of a stretch, in order.
#[derive(Drop)]
pub struct PartList {
    parts: Parts,
}

/// Parts of a stretch. Most stretches are a word, or a word and a space: so few lie where the stretch does.
#[derive(Drop)]
enum Parts {
    One([Part; 1]),
    Two([Part; 2]),
    Many(Vec<Part>),
}

impl Model for PartList {
    ghost use Rattle.std.specs.Prelude.{List};
    ghost use Rattle.lay_lines.specs.declared.content.content.Part.{Part};
    ghost use Rattle.lay_lines.specs.Content.PartLists.{parts_in};

    ghost Value = { List Part };

    ghost view = { λ l. parts_in l.parts };
}

impl PartList {
    /// The list of these.
    pub fn new(items: Vec<Part>) -> PartList
        ensures { result ≡ items.items }
    {
        let parts = match items.len() {
            1 => Parts::One([items[0]]),
            2 => Parts::Two([items[0], items[1]]),
            _ => Parts::Many(items),
        };
        PartList { parts }
    }

    /// A copy of these.
    #[inline(always)]
    pub fn copied(alloc: Global, items: &[Part]) -> Result<PartList, NoMemory>
        ensures { IfOk result (λ l. l ≡ items.now) }
    {
        let parts = match items.len() {
            1 => Parts::One([items[0]]),
            2 => Parts::Two([items[0], items[1]]),
            _ => Parts::Many(Vec::from_slice(alloc, items)?),
        };
        Ok(PartList { parts })
    }

    pub fn as_slice(&self) -> &[Part]
        ensures { result.now ≡ self.now }
    {
        match &self.parts {
            Parts::One(parts) => parts,
            Parts::Two(parts) => parts,
            Parts::Many(parts) => parts.as_slice(),
        }
    }
}

/// Floats that lines meet, in order.
#[derive(Drop)]
pub struct LineFloatList {
    items: Vec<LineFloat>,
}

impl Model for LineFloatList {
    ghost use Rattle.std.specs.Prelude.{List};
    ghost use Rattle.lay_lines.specs.declared.content.content.LineFloat.{LineFloat};

    ghost Value = { List LineFloat };

    ghost view = { λ l. l.items.items };
}

impl LineFloatList {
    /// The list of these, which is taken over without a copy.
    pub fn new(items: Vec<LineFloat>) -> LineFloatList
        ensures { result ≡ items.items }
    {
        LineFloatList { items }
    }

    pub fn as_slice(&self) -> &[LineFloat]
        ensures { result.now ≡ self.now }
    {
        self.items.as_slice()
    }
}

/// The stretches of the content of a container, in order.
#[derive(Drop)]
pub struct StretchList {
    items: Vec<Stretch>,
}

impl Model for StretchList {
    ghost use Rattle.std.specs.Prelude.{List};
    ghost use Rattle.lay_lines.specs.declared.content.content.Stretch.{Stretch};

    ghost Value = { List Stretch };

    ghost view = { λ l. l.items.items };
}

impl StretchList {
    /// The list of these, which is taken over without a copy.
    pub fn new(items: Vec<Stretch>) -> StretchList
        ensures { result ≡ items.items }
    {
        StretchList { items }
    }

    pub fn as_slice(&self) -> &[Stretch]
        ensures { result.now ≡ self.now }
    {
        self.items.as_slice()
    }
}
