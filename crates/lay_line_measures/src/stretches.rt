//! Segments as stretches.

ghost use Rattle.std.specs.Prelude.{◌≡◌, ◌++◌, [], true, ◌&&◌, not, if◌then◌else◌, IfOk, OnOk};
ghost use Rattle.lay_line_measures.specs.Stretches.{floats_at, is_line_content, parts_at, stretch_of, stretches_of};

use crate::atomic_boxes::atomic_at;
use crate::box_measures::BoxMeasures;
use crate::container::Container;
use crate::inline_boxes::{end_at, start_at};
use crate::line_floats::float_at;
use crate::text_parts::{TextBox, TextRun, push_part, put_text};
use lay_lines::content::{LineFloat, LineFloatList, Part, PartList, Stretch};
use lay_space::{Item, Segment};
use lay_units::NoMemory;
use std::alloc::Global;
use std::mem;

/// The stretches of the content of a container.
pub(crate) fn stretches_of(
    alloc: Global,
    measures: &BoxMeasures<'_>,
    container: Container,
    segments: &[Segment],
) -> Result<Vec<Stretch>, NoMemory>
    ensures { IfOk result (λ v. v.items ≡ stretches_of measures.now container true segments.now) }
{
    let mut stretches = Vec::with_capacity(alloc, segments.len())?;
    let mut measured = Measured {
        heads: Vec::new(alloc),
        parts: Vec::with_capacity(alloc, 2)?,
        floats: Vec::new(alloc),
        ahead: true,
    };
    for k in 0..segments.len() {
        let stretch = measured.stretch_of(alloc, measures, container, &segments[k])?;
        stretches.push(stretch)?;
        measured.ahead = segments[k].forced;
    }
    Ok(stretches)
}

/// What was measured of a segment, and whether no content came yet where a line begins.
#[derive(Drop)]
struct Measured {
    heads: Vec<LineFloat>,
    parts: Vec<Part>,
    floats: Vec<LineFloat>,
    ahead: bool,
}

impl Measured {
    /// A segment, of which `ahead` says whether it surely begins a line. Nothing is measured before, and nothing is left.
    fn stretch_of(
        &mut self,
        alloc: Global,
        measures: &BoxMeasures<'_>,
        container: Container,
        segment: &Segment,
    ) -> Result<Stretch, NoMemory>
        requires heads { self.old.heads.items ≡ [] }
        requires parts { self.old.parts.items ≡ [] }
        requires floats { self.old.floats.items ≡ [] }
        ensures stretch { IfOk result (λ s. s ≡ stretch_of measures.now container self.old.ahead segment.now) }
        ensures heads { OnOk result (self.new.heads.items ≡ []) }
        ensures parts { OnOk result (self.new.parts.items ≡ []) }
        ensures floats { OnOk result (self.new.floats.items ≡ []) }
    {
        let items = segment.items.as_slice();
        for k in 0..items.len() {
            self.put(measures, container, &items[k])?;
        }
        let parts = PartList::copied(alloc, &self.parts)?;
        self.parts.clear();
        Ok(Stretch {
            heads: LineFloatList::new(mem::replace(&mut self.heads, Vec::new(alloc))),
            parts,
            floats: LineFloatList::new(mem::replace(&mut self.floats, Vec::new(alloc))),
            forced: segment.forced,
        })
    }

    fn put(
        &mut self,
        measures: &BoxMeasures<'_>,
        container: Container,
        item: &Item,
    ) -> Result<(), NoMemory>
        ensures heads { OnOk result
            (self.new.heads.items ≡ self.old.heads.items ++ (if self.old.ahead then floats_at measures.now container item.now else [])) }
        ensures floats { OnOk result
            (self.new.floats.items ≡ self.old.floats.items ++ (if self.old.ahead then [] else floats_at measures.now container item.now)) }
        ensures parts { OnOk result (self.new.parts.items ≡ self.old.parts.items ++ parts_at measures.now item.now) }
        ensures ahead { OnOk result (self.new.ahead ≡ (self.old.ahead && not (is_line_content item.now))) }
    {
        self.put_floats(measures, container, item)?;
        put_parts(&mut self.parts, measures, item)?;
        self.ahead = self.ahead && !is_content(item);
        Ok(())
    }

    fn put_floats(
        &mut self,
        measures: &BoxMeasures<'_>,
        container: Container,
        item: &Item,
    ) -> Result<(), NoMemory>
        ensures heads { OnOk result
            (self.new.heads.items ≡ self.old.heads.items ++ (if self.old.ahead then floats_at measures.now container item.now else [])) }
        ensures floats { OnOk result
            (self.new.floats.items ≡ self.old.floats.items ++ (if self.old.ahead then [] else floats_at measures.now container item.now)) }
        ensures parts { self.new.parts.items ≡ self.old.parts.items }
        ensures ahead { self.new.ahead ≡ self.old.ahead }
    {
        let Item::Float(place) = item else {
            return Ok(());
        };
        let float = float_at(measures, container, *place);
        if self.ahead {
            self.heads.push(float)?;
        } else {
            self.floats.push(float)?;
        }
        Ok(())
    }
}

/// Puts what an item is in a line.
fn put_parts(parts: &mut Vec<Part>, measures: &BoxMeasures<'_>, item: &Item) -> Result<(), NoMemory>
    ensures { OnOk result (parts.new.items ≡ parts.old.items ++ parts_at measures.now item.now) }
{
    match item {
        Item::Text {
            node,
            text,
            mode,
            widths,
        } => put_text(
            parts,
            TextRun {
                of: TextBox {
                    node: *node,
                    mode: *mode,
                },
                text: text.as_str(),
            },
            widths.as_slice(),
        ),
        Item::Start(place, _) => push_part(parts, Part::Start(start_at(measures, *place))),
        Item::End(place) => push_part(parts, Part::End(end_at(measures, *place))),
        Item::Atomic(place, _) => push_part(parts, Part::Atomic(atomic_at(measures, *place))),
        Item::Float(_) | Item::Anchor(_) => Ok(()),
    }
}

/// Whether an item is content that a float can stand after.
fn is_content(item: &Item) -> bool
    ensures { result ≡ is_line_content item.now }
{
    match item {
        Item::Text { widths, .. } => !widths.as_slice().is_empty(),
        Item::Atomic(_, _) => true,
        Item::Start(_, takes_room) => *takes_room,
        _ => false,
    }
}
