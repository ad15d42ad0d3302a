//! The lines of a container.

ghost use Rattle.std.specs.Prelude.{◌≡◌, [], map, IsFalse, IfOk, IfErr};
ghost use Rattle.lay_lines.specs.Content.LineContents.{boxes_of};
ghost use Rattle.lay_lines.specs.Meeting.{none_met, IsFront};
ghost use Rattle.lay_lines.specs.Rows.{Laid, AreRows, CanLay, position_of, ended_of};

use crate::met::Met;
use crate::rest::Rest;
use crate::row::{Ended, put_row};
use lay_floats::{Floats, NodePlace, one_float_place, one_room};
use lay_units::{NoMemory, Unit};
use std::alloc::Global;

/// The lines of a container so far.
#[derive(Drop)]
pub struct Rows {
    pub rows: Vec<Ended>,
    pub places: Vec<NodePlace>,
    pub end: Unit,
}

pub fn lay_rows(alloc: Global, floats: &mut Floats, all: Rest<'_>) -> Result<Rows, NoMemory>
    requires none { IsFalse all.has_boxes → boxes_of all.stretches.now ≡ 0 }
    requires can { CanLay (position_of all.frame all.top.0 [] all.stretches.now
        (none_met floats.old)) }
    ensures rows { IfOk result (λ out. (laid : Laid)
        × AreRows (position_of all.entry.frame all.entry.top.0 [] all.entry.stretches.now
        (none_met floats.old)) laid × (map ended_of laid.rows ≡ out.rows.items) × (laid.position.from
        ≡ out.end.0) × (laid.position.state.places ≡ out.places.items) × (laid.position.state.floats
        ≡ floats.new)) }
    ensures stopped { IfErr result (λ _. (laid : Laid)
        → AreRows (position_of all.entry.frame all.entry.top.0 [] all.entry.stretches.now
        (none_met floats.old)) laid → IsFront floats.new laid.position.state.floats) }
{
    one_float_place();
    one_room();
    let mut rows = Vec::new(alloc);
    let mut boxes = Vec::new(alloc);
    let mut met = Met {
        places: Vec::new(alloc),
        put_off: Vec::new(alloc),
    };
    let mut rest = all;
    while !rest.stretches.is_empty() {
        let ended = put_row(alloc, floats, &mut met, &mut boxes, &rest)?;
        rest = rest.behind(&ended);
        rows.push(ended)?;
    }
    Ok(Rows {
        rows,
        places: met.places,
        end: rest.top,
    })
}
