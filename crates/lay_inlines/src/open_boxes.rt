//! The inline boxes that are open, line after line.

ghost use Rattle.std.specs.Prelude.{◌≡◌, OnOk};
ghost use Rattle.lay_inlines.specs.OpenBoxes.{open_after, open_after_part};
ghost use Rattle.lay_inlines.specs.Strokes.{parts_of};

use lay_lines::content::{Part, Stretch};
use lay_units::NoMemory;

/// Goes over content: the open boxes are then those after it, outermost first.
pub fn pass(open_boxes: &mut Vec<u32>, stretches: &[Stretch]) -> Result<(), NoMemory>
    ensures { OnOk result (open_boxes.new.items ≡ open_after open_boxes.old.items (parts_of stretches.now)) }
{
    for k in 0..stretches.len() {
        pass_parts(open_boxes, stretches[k].parts.as_slice())?;
    }
    Ok(())
}

fn pass_parts(open_boxes: &mut Vec<u32>, parts: &[Part]) -> Result<(), NoMemory>
    ensures { OnOk result (open_boxes.new.items ≡ open_after open_boxes.old.items parts.now) }
{
    for k in 0..parts.len() {
        pass_part(open_boxes, &parts[k])?;
    }
    Ok(())
}

fn pass_part(open_boxes: &mut Vec<u32>, part: &Part) -> Result<(), NoMemory>
    ensures { OnOk result (open_boxes.new.items ≡ open_after_part open_boxes.old.items part.now) }
{
    match part {
        Part::Start(start) => {
            open_boxes.push(start.node)?;
        }
        Part::End(_) => {
            let _ = open_boxes.pop();
        }
        _ => {}
    }
    Ok(())
}
